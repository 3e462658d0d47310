use caf_types::Letters;
use serde_json::{Map, Value as Json};

/// An array or an object of which values are missing.
#[derive(Drop)]
pub(crate) enum Part {
    /// So many values are missing behind the next one.
    Array {
        missing: u64,
        items: Vec<Json>,
    },
    /// So many members are missing behind the next one, whose name is `key`.
    Object {
        missing: u64,
        members: Map<String, Json>,
        key: Letters,
    },
}
