ghost use Rattle.std.specs.Prelude.{◌≡◌, IfOk, map, is_some};
ghost use Rattle.std.specs.List.{list_all};
ghost use Rattle.caf_command.specs.Reading as reading;

use crate::options::{is_plain, valued_named};
use caf_types::Letters;
use std::alloc::{AllocError, Global};

/// The words as texts.
pub(crate) fn texts_of<'a>(alloc: Global, words: &'a [Letters]) -> Result<Vec<&'a str>, AllocError>
    ensures { IfOk result (λ texts. map (λ text. text.now) texts.items ≡ words.entry.now) }
{
    let mut texts = Vec::new(alloc);
    for word in words {
        texts.push(word.as_str())?;
    }
    Ok(texts)
}

/// Whether each of the words may stand behind `run`.
pub(crate) fn are_known(words: &[Letters]) -> bool
    ensures { result ≡ list_all reading.is_known words.now }
{
    for word in words {
        if !is_known(word.as_str()) {
            return false;
        }
    }
    true
}

/// Whether the word is one that may stand behind `run`.
fn is_known(word: &str) -> bool
    ensures { result ≡ reading.is_known word.now }
{
    is_plain(word) || word == "--trace" || is_option(word)
}

fn is_option(word: &str) -> bool
    ensures { result ≡ is_some (reading.option_met word.now) }
{
    match word.split_once('=') {
        None => valued_named(word).is_some(),
        Some((name, value)) => valued_named(name).is_some() && is_plain(value),
    }
}
