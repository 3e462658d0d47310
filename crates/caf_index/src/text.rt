ghost use Rattle.std.specs.Prelude.{◌≡◌, ◌++◌, decimal, flat_map, IfOk, OnOk, map as each};
ghost use Rattle.std.specs.Option.{option_copied};
ghost use Rattle.caf_index.specs.Index.{files_of};
ghost use Rattle.caf_index.specs.IndexText.{name_of, number_text, file_text, files_text, under_word, index_text_of};

use crate::Index;
use crate::number_map::Files;
use caf_types::{Letters, Memory, Seq};
use itoa::Buffer;
use std::alloc::{AllocError, Global};

/// The index text: the words in byte order, and under each the files that have it, in order of their
/// numbers, with the line numbers in rising order. Files are numbered from 1, in the order of their
/// names; entries of other numbers are left out. The one refusal is want of memory.
pub fn index_text(alloc: Global, names: &Seq<Letters>, index: &Index) -> Result<Seq<u8>, Memory>
    ensures { IfOk result (λ text. text ≡ index_text_of names.now index.now) }
{
    let words = index.sorted_words()?;
    let mut text = Vec::new(alloc);
    for word in &words {
        push_word(&mut text, names.as_slice(), index, word)?;
    }
    Ok(Seq::of_vec(text))
}

/// Adds the word with its files.
fn push_word(
    text: &mut Vec<u8>,
    names: &[Letters],
    index: &Index,
    word: &str,
) -> Result<(), AllocError>
    ensures { OnOk result (text.new.items ≡ text.old.items ++ under_word word.now (files_text names.now (files_of index.now word.now))) }
{
    match index.files(word) {
        Some(files) => push_under(text, names, word, files),
        None => Ok(()),
    }
}

/// Adds the word and below it its files; nothing where none of these has a name.
fn push_under(
    text: &mut Vec<u8>,
    names: &[Letters],
    word: &str,
    files: &Files,
) -> Result<(), AllocError>
    ensures { OnOk result (text.new.items ≡ text.old.items ++ under_word word.now (files_text names.now files.now)) }
{
    let start = text.len();
    text.extend_from_slice(word.as_bytes())?;
    text.push(b'\n')?;
    let under = text.len();
    push_files(text, names, files)?;
    if text.len() == under {
        text.truncate(start);
    }
    Ok(())
}

/// Adds the files that have a name, in order of their numbers.
fn push_files(text: &mut Vec<u8>, names: &[Letters], files: &Files) -> Result<(), AllocError>
    ensures { OnOk result (text.new.items ≡ text.old.items ++ files_text names.now files.now) }
{
    for entry in files.as_slice() {
        push_file(text, name_of(names, entry.0), entry.1.as_slice())?;
    }
    Ok(())
}

/// The name of the file of that number.
fn name_of(names: &[Letters], file: u64) -> Option<&Letters>
    ensures { option_copied result ≡ name_of names.now file }
{
    if file == 0 {
        None
    } else {
        names.get((file - 1) as usize)
    }
}

/// Adds one file with its lines.
fn push_file(
    text: &mut Vec<u8>,
    name: Option<&Letters>,
    lines: &[(u64, ())],
) -> Result<(), AllocError>
    ensures { OnOk result (text.new.items ≡ text.old.items ++ file_text (option_copied name.entry) (each (λ line. line.0) lines.now)) }
{
    let Some(name) = name else {
        return Ok(());
    };
    if lines.is_empty() {
        return Ok(());
    }
    text.extend_from_slice(b"  ")?;
    text.extend_from_slice(name.as_str().as_bytes())?;
    text.push(b':')?;
    push_lines(text, lines)?;
    text.push(b'\n')?;
    Ok(())
}

/// Adds the line numbers, each after a space.
fn push_lines(text: &mut Vec<u8>, lines: &[(u64, ())]) -> Result<(), AllocError>
    ensures { OnOk result (text.new.items ≡ text.old.items ++ flat_map number_text (each (λ line. line.0) lines.now)) }
{
    for line in lines {
        push_number(text, line.0)?;
    }
    Ok(())
}

/// Adds a space and the number.
fn push_number(text: &mut Vec<u8>, number: u64) -> Result<(), AllocError>
    ensures { OnOk result (text.new.items ≡ text.old.items ++ number_text number) }
{
    let mut buffer = Buffer::new();
    text.push(b' ')?;
    text.extend_from_slice(buffer.format(number).as_bytes())
}
