//! The lines of the text, each with the number of its step.
ghost use Rattle.std.specs.Prelude.{◌≡◌, ◌++◌, decimal, OnOk};
ghost use Rattle.caf_report.specs.Lines as lines;

use caf_types::{Memory, Sec};
use itoa::Buffer;
use std::alloc::AllocError;

/// Adds that the request was not sent.
pub(crate) fn push_unsent(text: &mut Vec<u8>, number: u64) -> Result<(), Memory>
    ensures { OnOk result (text.new.items ≡ text.old.items ++ lines.unsent_line number) }
{
    text.extend_from_slice(b"unsent ")?;
    push_number(text, number)?;
    text.push(b'\n')?;
    Ok(())
}

/// Adds that the request was answered by an error.
pub(crate) fn push_error(text: &mut Vec<u8>, number: u64, why: Sec) -> Result<(), Memory>
    ensures { OnOk result (text.new.items ≡ text.old.items ++ lines.error_line number why) }
{
    text.extend_from_slice(b"reply ")?;
    push_number(text, number)?;
    text.extend_from_slice(b": error ")?;
    text.extend_from_slice(why.as_str().as_bytes())?;
    text.push(b'\n')?;
    Ok(())
}

/// Adds the front of the line of a request that was answered by values.
pub(crate) fn push_front(text: &mut Vec<u8>, number: u64) -> Result<(), Memory>
    ensures { OnOk result (text.new.items ≡ text.old.items ++ lines.value_front number) }
{
    text.extend_from_slice(b"reply ")?;
    push_number(text, number)?;
    text.push(b':')?;
    Ok(())
}

/// Adds the number in decimal.
fn push_number(text: &mut Vec<u8>, number: u64) -> Result<(), AllocError>
    ensures { OnOk result (text.new.items ≡ text.old.items ++ decimal number) }
{
    let mut buffer = Buffer::new();
    text.extend_from_slice(buffer.format(number).as_bytes())
}
