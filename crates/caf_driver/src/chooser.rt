//! Who takes next, and from whom.
ghost use Rattle.std.specs.Prelude.{◌≡◌, ◌≢◌, [], ◌++◌, ℕ, not, nat_lt, Some, None};
ghost use Rattle.std.specs.List.{prefix_len};
ghost use Rattle.caf_driver.specs.Places.{IsRising, next_past, first_of};

use caf_types::Places;

/// Chooses the place that takes the next batch, and the senders whose envelopes it takes.
///
/// What is offered is never empty, and in rising order. A choice that wasn't offered counts as the
/// first offered.
pub trait Chooser {
    /// The place that takes the next batch, of those for which something waits.
    fn place(&mut self, offered: &Places) -> u32
        requires some { offered.now ≢ [] }
        requires rising { IsRising offered.now };

    /// The sender whose next envelope the place takes, of those of whom something waits for it; `None`
    /// where the batch is to end. A batch isn't empty: there `None` counts as the first offered.
    fn sender(&mut self, place: u32, offered: &Places) -> Option<u32>
        requires some { offered.now ≢ [] }
        requires rising { IsRising offered.now };
}

/// Goes round the places, from the least offered on, and takes all that waits for each.
#[derive(Clone, Copy, Debug)]
pub struct RoundRobin {
    last: Option<u32>,
}

impl RoundRobin {
    /// Begins with the least offered place.
    pub fn new() -> RoundRobin {
        RoundRobin { last: None }
    }
}

/// The first place offered after the last one, round the places; without a last one the first.
fn place_after(last: Option<u32>, offered: &[u32]) -> u32
    requires { offered.now ≢ [] }
    ensures first { last ≡ None → result ≡ first_of offered.now }
    ensures next { (place : ℕ) → last ≡ Some place → result ≡ first_of (next_past place offered.now ++ offered.now) }
{
    match last {
        Some(last) => place_past(last, offered),
        None => offered[0],
    }
}

/// The first place offered after this one, round the places.
fn place_past(place: u32, offered: &[u32]) -> u32
    requires { offered.now ≢ [] }
    ensures { result ≡ first_of (next_past place offered.now ++ offered.now) }
{
    let at = count_up_to(offered, place);
    if at < offered.len() {
        offered[at]
    } else {
        offered[0]
    }
}

/// How many places from the front on are at most this one.
fn count_up_to(list: &[u32], place: u32) -> usize
    ensures { result ≡ prefix_len (λ p. not (nat_lt place p)) list.now }
{
    list.iter().take_while(|other| **other <= place).count()
}

impl Chooser for RoundRobin {
    fn place(&mut self, offered: &Places) -> u32 {
        let place = place_after(self.last, offered.as_slice());
        self.last = Some(place);
        place
    }

    fn sender(&mut self, place: u32, offered: &Places) -> Option<u32> {
        let _ = place;
        Some(offered.as_slice()[0])
    }
}
