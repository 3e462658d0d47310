ghost use Rattle.std.specs.Prelude.{◌≡◌, ◌↔◌, ◌++◌, All, Contains, IsTrue, IfOk, OnOk, map as each};
ghost use Rattle.std.specs.List.Sorted.{IsStrictlySortedBy};
ghost use Rattle.caf_index.specs.Words.{is_word_byte, lower_case, ended_word};
ghost use Rattle.caf_index.specs.Postings.{posting_at, stopped, words_from, posting_cmp, postings_of, IsPostingOf};
ghost use Rattle.caf_index.specs.declared.posting.Posting.{Posting};

use crate::words::is_word_byte;
use caf_types::{Letters, Memory, Seq};
use std::alloc::{AllocError, Global};

/// That a word stands in a line.
#[derive(Debug, Drop)]
pub struct Posting {
    /// The word, in lower case.
    pub word: Letters,
    /// The number of the line.
    pub line: u64,
}

/// The postings of bytes whose first line has the number `line` and each later one the next; numbers
/// stop at 2^64 - 1. They are sorted by word, byte by byte, then by line, each pair once. The one
/// refusal is want of memory.
pub fn postings(alloc: Global, line: u64, bytes: &[u8]) -> Result<Seq<Posting>, Memory>
    ensures value { IfOk result (λ postings. postings ≡ postings_of line bytes.now) }
    ensures sorted { IfOk result (λ postings. IsStrictlySortedBy posting_cmp postings) }
    ensures exact { IfOk result (λ postings. (posting : Posting) → Contains postings posting ↔ IsPostingOf line bytes.now posting) }
{
    let text = lower_text(alloc, bytes)?;
    let mut words = words_at(alloc, line, text.as_slice())?;
    words.sort()?;
    words.dedup();
    listed(alloc, words.as_slice())
}

/// The bytes with `A` to `Z` as `a` to `z`.
fn lower_text(alloc: Global, bytes: &[u8]) -> Result<Vec<u8>, AllocError>
    ensures { IfOk result (λ text. text.items ≡ each lower_case bytes.now) }
{
    bytes
        .iter()
        .map(|byte| byte.to_ascii_lowercase())
        .collect(alloc)
}

/// The words of a text in lower case, in order, each with its line.
fn words_at<'a>(
    alloc: Global,
    first: u64,
    text: &'a [u8],
) -> Result<Vec<(&'a str, u64)>, AllocError>
    requires { each lower_case text.now ≡ text.now }
    ensures { IfOk result (λ words. each (λ word. posting_at word.0.now word.1) words.items ≡ words_from first text.now) }
{
    let mut words = Vec::new(alloc);
    let mut line = first;
    let mut from = 0usize;
    for (at, byte) in text.iter().enumerate() {
        if !is_word_byte(*byte) {
            push_word(&mut words, &text[from..at], line)?;
            from = at + 1;
            if *byte == b'\n' {
                line = line.saturating_add(1);
            }
        }
    }
    push_word(&mut words, &text[from..], line)?;
    Ok(words)
}

/// Adds the word with its line, unless it has no bytes.
fn push_word<'a>(
    words: &mut Vec<(&'a str, u64)>,
    word: &'a [u8],
    line: u64,
) -> Result<(), AllocError>
    requires { All (λ byte. IsTrue (is_word_byte byte)) word.now }
    ensures { OnOk result (each (λ word. posting_at word.0.now word.1) words.new.items ≡ each (λ word. posting_at word.0.now word.1) words.old.items ++ each stopped (ended_word word.now line)) }
{
    if word.is_empty() {
        return Ok(());
    }
    match str::from_utf8(word) {
        Ok(word) => {
            words.push((word, line))?;
            Ok(())
        }
        Err(_) => unreachable!(),
    }
}

/// The words, each with its line, as postings.
fn listed(alloc: Global, words: &[(&str, u64)]) -> Result<Seq<Posting>, Memory>
    ensures { IfOk result (λ postings. postings ≡ each (λ word. posting_at word.0.now word.1) words.now) }
{
    let mut postings = Seq::new(alloc);
    for word in words {
        postings.push(Posting {
            word: Letters::of(alloc, word.0)?,
            line: word.1,
        })?;
    }
    Ok(postings)
}
