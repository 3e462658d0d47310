ghost use Rattle.std.specs.Prelude.{◌≡◌, [], false, is_some, slice_get, MatchOption, OnOk, OnErr, IfErr, IfSome, IfNone, Some, None};
ghost use Rattle.std.specs.Option.{option_map};
ghost use Rattle.caf_message.specs.Lists.{pick};
ghost use Rattle.caf_response.specs.Lines.{in_lines, AreFiled, key_order, put_in, comes_before, has_key, first_of, first_within};
ghost use Rattle.std.specs.BTreeMap.{get, keys};
ghost use Rattle.std.specs.BTreeMap.Range.{IsLeBy};
ghost use Rattle.std.specs.List.{All, AllByRecursion, list_any};

use crate::line::{Line, Lined, Lines};
use std::alloc::Global;
use std::collections::VecDeque;

/// Puts one into the line of its key. It comes back where memory is wanted.
pub(crate) fn add_to<T: Lined>(lines: &mut Lines<T>, alloc: Global, item: T) -> Result<(), T>
    requires { AreFiled T.key lines.old.entries }
    ensures added { OnOk result (in_lines lines.new.entries ≡ put_in (comes_before T.key) (in_lines lines.old.entries) item) }
    ensures back { IfErr result (λ refused. refused ≡ item) }
    ensures kept { OnErr result (in_lines lines.new.entries ≡ in_lines lines.old.entries) }
    ensures filed { AreFiled T.key lines.new.entries }
{
    let key = item.key();
    match lines.get_mut(&key) {
        Some(line) => line.add(item),
        None => begin_line(lines, alloc, key, item),
    }
}

/// Begins a line.
fn begin_line<T: Lined>(
    lines: &mut Lines<T>,
    alloc: Global,
    key: (u64, u32),
    item: T,
) -> Result<(), T>
    requires filed { AreFiled T.key lines.old.entries }
    requires key { T.key item ≡ key }
    requires new { get key_order lines.old key ≡ None }
    ensures added { OnOk result (in_lines lines.new.entries ≡ put_in (comes_before T.key) (in_lines lines.old.entries) item) }
    ensures back { IfErr result (λ refused. refused ≡ item) }
    ensures kept { OnErr result (in_lines lines.new.entries ≡ in_lines lines.old.entries) }
    ensures filed { AreFiled T.key lines.new.entries }
{
    let line = Line {
        first: item,
        later: VecDeque::new(alloc),
    };
    match lines.insert(key, line) {
        Ok(_) => Ok(()),
        Err(refused) => {
            let (_, line) = refused.value;
            Err(line.first)
        }
    }
}

/// Takes out the first one by key, then arrival.
pub(crate) fn take_first<T: Lined>(lines: &mut Lines<T>) -> Option<T>
    requires { AreFiled T.key lines.old.entries }
    ensures taken { option_map (λ item. (item, in_lines lines.new.entries)) result ≡ first_of (in_lines lines.old.entries) }
    ensures least { IfSome result (λ item. AllByRecursion (λ other. comes_before T.key other item ≡ false) (in_lines lines.old.entries)) }
    ensures kept { IfNone result (in_lines lines.new.entries ≡ in_lines lines.old.entries) }
    ensures filed { AreFiled T.key lines.new.entries }
{
    match first_key(lines) {
        Some(key) => take_out(lines, key),
        None => None,
    }
}

/// Takes out the first one by key, then arrival, where the first number of its key is at most `most`.
pub(crate) fn take_within<T: Lined>(lines: &mut Lines<T>, most: u64) -> Option<T>
    requires { AreFiled T.key lines.old.entries }
    ensures taken { option_map (λ item. (item, in_lines lines.new.entries)) result ≡ first_within T.key most (in_lines lines.old.entries) }
    ensures kept { IfNone result (in_lines lines.new.entries ≡ in_lines lines.old.entries) }
    ensures filed { AreFiled T.key lines.new.entries }
{
    match first_key(lines) {
        Some(key) => {
            if key.0 > most {
                return None;
            }
            take_out(lines, key)
        }
        None => None,
    }
}

/// The least key.
fn first_key<T: Drop>(lines: &Lines<T>) -> Option<(u64, u32)>
    ensures first { MatchOption result (lines.now.entries ≡ []) (λ key. option_map (λ e. e.0) (slice_get lines.now.entries 0) ≡ Some key) }
    ensures least { IfSome result (λ key. All (IsLeBy key_order key) (keys lines.now)) }
{
    match lines.first_key_value() {
        Some((key, _)) => Some(*key),
        None => None,
    }
}

/// Takes the first one out of the line with that key.
pub(crate) fn take_out<T: Lined>(lines: &mut Lines<T>, key: (u64, u32)) -> Option<T>
    requires { AreFiled T.key lines.old.entries }
    ensures taken { option_map (λ item. (item, in_lines lines.new.entries)) result ≡ pick (has_key T.key key) (in_lines lines.old.entries) }
    ensures some { is_some result ≡ list_any (has_key T.key key) (in_lines lines.old.entries) }
    ensures kept { IfNone result (in_lines lines.new.entries ≡ in_lines lines.old.entries) }
    ensures filed { AreFiled T.key lines.new.entries }
{
    match take_of_several(lines, key) {
        Some(item) => Some(item),
        None => take_alone(lines, key),
    }
}

/// Takes the first one out of the line with that key, where it has several.
fn take_of_several<T: Lined>(lines: &mut Lines<T>, key: (u64, u32)) -> Option<T>
    requires { AreFiled T.key lines.old.entries }
    ensures taken { IfSome result (λ item. pick (has_key T.key key) (in_lines lines.old.entries) ≡ Some (item, in_lines lines.new.entries)) }
    ensures alone { IfNone result (IfSome (get key_order lines.new key) (λ line. line.later.items ≡ [])) }
    ensures kept { IfNone result (in_lines lines.new.entries ≡ in_lines lines.old.entries) }
    ensures filed { AreFiled T.key lines.new.entries }
{
    match lines.get_mut(&key) {
        Some(line) => line.take_first(),
        None => None,
    }
}

/// Takes out the line with that key, in which one stands.
fn take_alone<T: Lined>(lines: &mut Lines<T>, key: (u64, u32)) -> Option<T>
    requires filed { AreFiled T.key lines.old.entries }
    requires alone { IfSome (get key_order lines.old key) (λ line. line.later.items ≡ []) }
    ensures taken { option_map (λ item. (item, in_lines lines.new.entries)) result ≡ pick (has_key T.key key) (in_lines lines.old.entries) }
    ensures kept { IfNone result (in_lines lines.new.entries ≡ in_lines lines.old.entries) }
    ensures filed { AreFiled T.key lines.new.entries }
{
    match lines.remove(&key) {
        Some(line) => Some(line.into_only()),
        None => None,
    }
}
