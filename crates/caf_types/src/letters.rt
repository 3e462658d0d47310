ghost use Rattle.std.specs.Prelude.{◌≡◌, IfOk, MatchOption, true, false};
ghost use Rattle.std.specs.Str.{is_utf8};

use crate::Memory;
use std::alloc::Global;
use std::marker::Model;

/// An owned text, seen as the list of its UTF-8 bytes.
#[derive(Debug, Drop)]
pub struct Letters {
    text: String,
}

impl Model for Letters {
    ghost use Rattle.std.specs.Prelude.{List, ℕ, string_bytes};

    ghost Value = { List ℕ };

    ghost view = { λ letters. string_bytes letters.text };
}

impl Letters {
    /// A copy of `text`. Its one refusal is want of memory.
    pub fn of(alloc: Global, text: &str) -> Result<Letters, Memory>
        ensures { IfOk result (λ letters. letters ≡ text.now) }
    {
        Ok(Letters {
            text: String::from_str(alloc, text)?,
        })
    }

    /// The text of these bytes; None exactly where they aren't UTF-8. It takes no memory.
    pub fn from_utf8(bytes: Vec<u8>) -> Option<Letters>
        ensures { MatchOption result (is_utf8 bytes.items ≡ false) (λ letters. (is_utf8 bytes.items ≡ true) × (letters ≡ bytes.items)) }
    {
        match String::from_utf8(bytes) {
            Ok(text) => Some(Letters { text }),
            Err(_) => None,
        }
    }

    /// The text itself.
    pub fn as_str(&self) -> &str
        ensures { result.now ≡ self.now }
    {
        self.text.as_str()
    }
}
