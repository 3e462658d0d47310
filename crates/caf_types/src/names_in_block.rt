//! How often each name stands among the entries of a block.

ghost use Rattle.std.specs.Prelude.{◌≡◌, ℕ, List, unwrap_or, nat_lt, IfOk};
ghost use Rattle.std.specs.BTreeMap.{get_by_text};
ghost use Rattle.caf_types.specs.Shape.{entry_views};
ghost use Rattle.caf_types.specs.Table.{count_named};

use crate::{Entry, Memory};
use std::alloc::Global;
use std::collections::BTreeMap;

/// How many entries have each name.
pub(crate) type NameCounts = BTreeMap<String, u64>;

pub(crate) fn count_names(alloc: Global, entries: &[Entry]) -> Result<NameCounts, Memory>
    ensures { IfOk result (λ counts. (name : List ℕ) → unwrap_or (get_by_text counts name) 0 ≡ count_named name (entry_views entries.now)) }
{
    let mut counts = BTreeMap::new(alloc);
    for entry in entries {
        let name = String::from_str(alloc, entry.name.as_str())?;
        *counts.entry(name)?.or_insert(0) += 1;
    }
    Ok(counts)
}

pub(crate) fn stands_twice(counts: &NameCounts, name: &str) -> bool
    ensures { result ≡ nat_lt 1 (unwrap_or (get_by_text counts.now name.now) 0) }
{
    counts.get(name).copied().unwrap_or(0) > 1
}
