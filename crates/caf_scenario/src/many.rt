//! Too many actors, sources or steps.
ghost use Rattle.std.specs.Prelude.{◌≡◌, ◌+◌, ◌<◌, nat_lt, count_by, MatchOption};
ghost use Rattle.caf_scenario.specs.Many as too_many;
ghost use Rattle.caf_scenario.specs.Many.{is_source, places_used};
ghost use Rattle.caf_scenario.specs.Written.{document_seen};

use crate::written::{Written, WrittenActor};

/// Whether there are too many steps, actors or sources.
pub(crate) fn is_many(written: &Written<'_>) -> bool
    ensures { result ≡ too_many.is_many (document_seen written.now) }
{
    has_many_steps(written.script.len())
        || has_many_places(written.actors.as_slice())
        || has_many_sources(written.actors.as_slice())
}

fn has_many_steps(steps: u64) -> bool
    ensures { result ≡ nat_lt 1000 steps }
{
    steps > 1000
}

fn has_many_places(actors: &[WrittenActor]) -> bool
    ensures { result ≡ nat_lt 255 (places_used actors.now) }
{
    places_left(actors).is_none()
}

fn has_many_sources(actors: &[WrittenActor]) -> bool
    ensures { result ≡ nat_lt 1 (count_by is_source actors.now) }
{
    actors.iter().filter(|actor| is_source(actor)).count() > 1
}

fn is_source(actor: &WrittenActor) -> bool
    ensures { result ≡ is_source actor.now }
{
    actor.kind.as_str() == "source"
}

/// How many of the 255 places the actors and their children leave; None exactly where they are more.
pub(crate) fn places_left(actors: &[WrittenActor]) -> Option<u32>
    ensures { MatchOption result (255 < places_used actors.now) (λ left. places_used actors.now + left ≡ 255) }
{
    if actors.len() > 255 {
        return None;
    }
    let mut left = 255 - actors.len() as u32;
    for actor in actors {
        if actor.children > left {
            return None;
        }
        left -= actor.children;
    }
    Some(left)
}
