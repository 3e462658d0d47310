//! Lists of places in rising order.
ghost use Rattle.std.specs.Prelude.{◌≡◌, ◌≢◌, ◌≤◌, [], nat_lt, true, length, IfOk};
ghost use Rattle.std.specs.List.{prefix_len};
ghost use Rattle.caf_driver.specs.Places.{IsRising, has_place, place_in, place_out, chosen};

use caf_types::{Memory, Places, Seq};

/// The list with one place more, which isn't in it.
pub(crate) fn with_place(places: Places, place: u32) -> Result<Places, Memory>
    ensures { IfOk result (λ list. list ≡ place_in place places) }
{
    let at = count_below(places.as_slice(), place);
    let mut list = places.into_vec();
    list.insert(at, place)?;
    Ok(Seq::of_vec(list))
}

/// The list without the place, which is in it.
pub(crate) fn without_place(places: Places, place: u32) -> Places
    requires rising { IsRising places }
    requires has { has_place places place ≡ true }
    ensures { result ≡ place_out place places }
{
    let at = count_below(places.as_slice(), place);
    let mut list = places.into_vec();
    let _ = list.remove(at);
    Seq::of_vec(list)
}

/// How many places from the front on are less than this one.
fn count_below(list: &[u32], place: u32) -> usize
    ensures count { result ≡ prefix_len (λ p. nat_lt p place) list.now }
    ensures bound { result ≤ length list.now }
{
    list.iter().take_while(|other| **other < place).count()
}

/// The choice, where it was offered, and else the first that was.
pub(crate) fn chosen_of(offered: &Places, choice: u32) -> u32
    requires { offered.now ≢ [] }
    ensures { result ≡ chosen offered.now choice }
{
    let offered = offered.as_slice();
    if is_offered(offered, choice) {
        choice
    } else {
        offered[0]
    }
}

fn is_offered(list: &[u32], place: u32) -> bool
    ensures { result ≡ has_place list.now place }
{
    list.iter().any(|other| *other == place)
}
