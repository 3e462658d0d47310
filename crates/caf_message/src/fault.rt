ghost use Rattle.std.specs.Prelude.{◌≡◌};
ghost use Rattle.caf_message.specs.declared.fault.MessageFault.TheVariants as message_faults;
ghost use Rattle.caf_message.specs.declared.fault.ViewFault.TheVariants as view_faults;

use caf_tuple::TupleFault;
use caf_types::Memory;
use thiserror::Error;

/// Why a message was not made or replaced.
#[derive(Error, Clone, Copy, Debug, PartialEq, Eq, Drop)]
pub enum MessageFault {
    /// The content is over [`MOST_WORDS`](caf_tuple::MOST_WORDS) words.
    #[error("a message of more than 4194304 words")]
    Large,
    /// Want of memory.
    #[error("out of memory")]
    Memory,
}

impl From<Memory> for MessageFault {
    ghost from_gives = { λ _ fault. fault ≡ message_faults.Memory };

    fn from(_: Memory) -> MessageFault {
        MessageFault::Memory
    }
}

impl From<TupleFault> for MessageFault {
    ghost use Rattle.caf_message.specs.Answers.{message_fault};

    ghost from_gives = { λ tuple fault. fault ≡ message_fault tuple };

    fn from(fault: TupleFault) -> MessageFault {
        match fault {
            TupleFault::Large => MessageFault::Large,
            TupleFault::Memory => MessageFault::Memory,
        }
    }
}

/// Why a message was not viewed as a row.
#[derive(Error, Clone, Copy, Debug, PartialEq, Eq, Drop)]
pub enum ViewFault {
    /// The message's IDs aren't the row's.
    #[error("a message of other types")]
    Types,
    /// Want of memory.
    #[error("out of memory")]
    Memory,
}

impl From<Memory> for ViewFault {
    ghost from_gives = { λ _ fault. fault ≡ view_faults.Memory };

    fn from(_: Memory) -> ViewFault {
        ViewFault::Memory
    }
}
