ghost use Rattle.std.specs.Prelude.{◌≡◌, Some, IsTrue, IfOk};
ghost use Rattle.std.specs.List.{list_all};
ghost use Rattle.caf_types.specs.Name as names;
ghost use Rattle.caf_types.specs.Name.{is_name};
ghost use Rattle.caf_types.specs.NameAnswer.{NameAnswer};
ghost use Rattle.caf_types.specs.declared.name.NameFault.TheVariants as faults;

use crate::{LONGEST_NAME, Letters, Memory};
use std::alloc::Global;
use std::fmt;
use std::marker::Model;
use thiserror::Error;

/// Why a text was not made a name.
#[derive(Error, Clone, Copy, Debug, PartialEq, Eq, Drop)]
pub enum NameFault {
    /// The text isn't 1 to 64 bytes of `a` to `z`, `0` to `9` and `_`.
    #[error("not a name")]
    Form,
    /// Want of memory.
    #[error("out of memory")]
    Memory,
}

impl From<Memory> for NameFault {
    ghost from_gives = { λ _ fault. fault ≡ faults.Memory };

    fn from(_: Memory) -> NameFault {
        NameFault::Memory
    }
}

/// The name of a type, a field or a block: 1 to 64 bytes of `a` to `z`, `0` to `9` and `_`, seen as
/// the list of these bytes.
#[derive(Debug, Drop)]
pub struct Name {
    text: Letters,
}

impl Model for Name {
    ghost use Rattle.std.specs.Prelude.{◌≡◌, List, ℕ, true};
    ghost use Rattle.caf_types.specs.Name.{is_name};

    ghost Value = { List ℕ };

    ghost view = { λ name. name.text };

    ghost invariant = { λ name. is_name name.text ≡ true };
}

impl Name {
    /// The name `text`. `Form` comes exactly where the text is no name.
    pub fn new(alloc: Global, text: &str) -> Result<Name, NameFault>
        ensures { NameAnswer result text.now }
    {
        if !is_name_text(text) {
            return Err(NameFault::Form);
        }
        let name = Name::of(alloc, text)?;
        Ok(name)
    }

    /// The name `text`, of which it is known that it is one.
    pub fn of(alloc: Global, text: &str) -> Result<Name, Memory>
        requires { IsTrue (is_name text.now) }
        ensures { IfOk result (λ name. name ≡ text.now) }
    {
        Ok(Name {
            text: Letters::of(alloc, text)?,
        })
    }

    /// The text itself.
    pub fn as_str(&self) -> &str
        ensures text { result.now ≡ self.now }
        ensures valid { IsTrue (is_name self.now) }
    {
        self.text.as_str()
    }
}

/// Writes the text itself.
impl fmt::Display for Name {
    ghost output = { λ name. Some name };

    fn fmt<W: fmt::Write>(&self, f: &mut fmt::Formatter<W>) -> fmt::Result {
        let text = self.as_str();
        write!(f, "{text}")
    }
}

fn is_name_text(text: &str) -> bool
    ensures { result ≡ is_name text.now }
{
    let length = text.len();
    if length < 1 || length > LONGEST_NAME {
        return false;
    }
    are_name_bytes(text.as_bytes())
}

fn are_name_bytes(bytes: &[u8]) -> bool
    ensures { result ≡ list_all names.is_name_byte bytes.now }
{
    for byte in bytes {
        if !is_name_byte(*byte) {
            return false;
        }
    }
    true
}

fn is_name_byte(byte: u8) -> bool
    ensures { result ≡ names.is_name_byte byte }
{
    matches!(byte, b'a'..=b'z' | b'0'..=b'9' | b'_')
}
