ghost use Rattle.std.specs.Prelude.{◌≡◌};
ghost use Rattle.caf_types.specs.declared.table_fault.TableFault.TheVariants as faults;

use crate::{DEEPEST, FIRST_ID, LAST_ID, Memory, Name, TypeId};
use thiserror::Error;

/// Why a block was not added.
#[derive(Error, Debug, Drop)]
pub enum TableFault {
    /// The least ID of the block that the table has already.
    #[error("type ID {0} is taken")]
    Taken(TypeId),
    /// The first name that is taken: the block's, or that of an entry.
    #[error("name {0} is taken")]
    Name(Name),
    /// The block's IDs aren't from [`FIRST_ID`] to [`LAST_ID`].
    #[error("type IDs are not from {FIRST_ID} to {LAST_ID}")]
    Range,
    /// The least ID of the block whose shape nests past [`DEEPEST`].
    #[error("the shape of type ID {0} nests past {DEEPEST}")]
    Deep(TypeId),
    /// Want of memory.
    #[error("out of memory")]
    Memory,
}

impl From<Memory> for TableFault {
    ghost from_gives = { λ _ fault. fault ≡ faults.Memory };

    fn from(_: Memory) -> TableFault {
        TableFault::Memory
    }
}
