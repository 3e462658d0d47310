ghost use Rattle.std.specs.Prelude.{◌≡◌, ◌+◌, ◌*◌, ◌<◌, ◌^◌, ◌++◌, flat_map, IfOk, OnOk};
ghost use Rattle.caf_generator.specs.Generator.{span, word_at, line_at, files_of};

use crate::numbers::Numbers;
use caf_types::{Memory, Octets, Seq};
use itoa::Buffer;
use std::alloc::{AllocError, Global};

/// How many lines a file has; the last one has what is left.
const LINES_IN_FILE: u64 = 1000;

/// How many words a line has.
const WORDS_IN_LINE: u64 = 8;

/// The files of so many lines: a thousand lines each, the last one what is left. The one refusal is want of
/// memory.
pub fn generated_files(alloc: Global, lines: u32) -> Result<Seq<Octets>, Memory>
    ensures { IfOk result (λ files. files ≡ files_of lines) }
{
    let lines = u64::from(lines);
    let mut files = Seq::new(alloc);
    let mut numbers = Numbers::new();
    for file in 0..(lines + 999) / LINES_IN_FILE {
        let first = LINES_IN_FILE * file;
        let count = LINES_IN_FILE.min(lines - first);
        files.push(next_file(alloc, &mut numbers, first, count)?)?;
    }
    Ok(files)
}

/// The next file: so many lines, of which the first has that number.
fn next_file(alloc: Global, numbers: &mut Numbers, first: u64, count: u64) -> Result<Octets, Memory>
    requires here { numbers.old ≡ 8 * first }
    requires within { first + count < 2 ^ 60 }
    ensures text { IfOk result (λ text. text ≡ flat_map line_at (span first count)) }
    ensures taken { OnOk result (numbers.new ≡ 8 * (first + count)) }
{
    let mut text = Vec::new(alloc);
    for line in first..first + count {
        push_line(&mut text, numbers, line)?;
    }
    Ok(Seq::of_vec(text))
}

/// Adds the line of that number, whose words are the next ones.
fn push_line(text: &mut Vec<u8>, numbers: &mut Numbers, line: u64) -> Result<(), AllocError>
    requires here { numbers.old ≡ 8 * line }
    requires within { line < 2 ^ 60 }
    ensures text { OnOk result (text.new.items ≡ text.old.items ++ line_at line) }
    ensures taken { OnOk result (numbers.new ≡ 8 * (line + 1)) }
{
    push_word(text, numbers)?;
    for _word in 1..WORDS_IN_LINE {
        text.push(b' ')?;
        push_word(text, numbers)?;
    }
    text.push(b'\n')?;
    Ok(())
}

/// Adds the next word.
fn push_word(text: &mut Vec<u8>, numbers: &mut Numbers) -> Result<(), AllocError>
    requires { numbers.old + 1 < 2 ^ 64 }
    ensures text { OnOk result (text.new.items ≡ text.old.items ++ word_at numbers.old) }
    ensures taken { numbers.new ≡ numbers.old + 1 }
{
    let number = numbers.take();
    let mut buffer = Buffer::new();
    text.push(b'w')?;
    text.extend_from_slice(buffer.format(number % 1000).as_bytes())
}
