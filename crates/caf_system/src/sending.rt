//! How posts come into the inboxes of the places that they go to.
ghost use Rattle.std.specs.Prelude.{◌≡◌, ℕ, [], ◌∷◌, map, slice_get, Some, OnOk};
ghost use Rattle.std.specs.List.{AllByRecursion};
ghost use Rattle.caf_message.specs.Entries.{entry_shape};
ghost use Rattle.caf_message.specs.Envelope.{plain_envelope, EnvelopeFits};
ghost use Rattle.caf_actor.specs.Leads.{PostFits};
ghost use Rattle.caf_actor.specs.PlainForms.{plain_post};
ghost use Rattle.caf_actor.specs.PlainPost.{PlainPost};
ghost use Rattle.caf_actor.specs.Record.{to_place};
ghost use Rattle.caf_system.specs.Station.{AreLanesOf, HasSent};

use caf_actor::{Behavior, Post};
use caf_inbox::Lane;
use caf_types::{Memory, Places};
use std::sync::Wait;

/// Each post is pushed on the lane to its place, in order, and each of these places is added once. A post to a place
/// that has no lane isn't sent.
pub(crate) fn send<B: Behavior, R: Wait>(
    rt: &R,
    lanes: &mut Vec<Lane<B>>,
    posts: Vec<Post>,
    places: &mut Places,
) -> Result<(), Memory>
    requires own { AllByRecursion (λ (p : PlainPost). AreLanesOf p.envelope.sender lanes.old.items) (map plain_post posts.items) }
    requires fits { AllByRecursion (PostFits (entry_shape B.entries)) (map plain_post posts.items) }
    ensures { OnOk result (HasSent lanes.old.items (λ b. to_place b (map plain_post posts.items)) lanes.new.items) }
{
    for post in posts {
        add_place(places, post.to)?;
        push(rt, lanes, post)?;
    }
    Ok(())
}

/// The post is pushed on the lane to its place, if it has one.
fn push<B: Behavior, R: Wait>(rt: &R, lanes: &mut Vec<Lane<B>>, post: Post) -> Result<(), Memory>
    requires own { AreLanesOf (plain_post post).envelope.sender lanes.old.items }
    requires fits { PostFits (entry_shape B.entries) (plain_post post) }
    ensures { OnOk result (HasSent lanes.old.items (λ b. to_place b (plain_post post ∷ [])) lanes.new.items) }
{
    if post.to as usize >= lanes.len() {
        return Ok(());
    }
    let lane = &mut lanes[post.to as usize];
    if lane.push(rt, post.envelope).is_err() {
        return Err(Memory);
    }
    Ok(())
}

/// The place is added where it isn't there yet.
fn add_place(places: &mut Places, place: u32) -> Result<(), Memory> {
    for known in places.as_slice() {
        if *known == place {
            return Ok(());
        }
    }
    places.push(place)
}
