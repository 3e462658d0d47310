ghost use Rattle.std.specs.Prelude.{◌≡◌, [], ℕ, ◌+◌, ◌<◌, ◌≤◌, ◌^◌, length, take, IfOk, IfErr};
ghost use Rattle.caf_corpus.specs.Limits as limits;
ghost use Rattle.caf_corpus.specs.Limits.{IsAt, IsFine, IsFirst};
ghost use Rattle.caf_corpus.specs.declared.scan.TheConstants.{LONGEST_LINE, LARGEST_CORPUS};

/// The most bytes of a line, with its line end.
pub const LONGEST_LINE: u64 = 1_048_576;

/// The most bytes of all files together.
pub const LARGEST_CORPUS: u64 = 67_108_864;

/// Where the reading of a file stands.
#[derive(Clone, Copy, Debug)]
pub(crate) struct Spot {
    /// The line of the next byte, counted from 1.
    pub(crate) line: u64,
    /// How many bytes of that line were read.
    pub(crate) filled: u64,
}

/// A limit that is passed, and the line of the first byte beyond it.
#[derive(Clone, Copy, Debug)]
pub enum Passed {
    /// That of a line.
    Line(u64),
    /// That of all files together.
    Corpus(u64),
}

impl Spot {
    /// The beginning of a file.
    pub(crate) fn first() -> Spot
        ensures { IsAt [] result }
    {
        Spot { line: 1, filled: 0 }
    }

    /// The spot behind one more byte.
    fn behind(self, byte: u8) -> Spot
        requires line { self.line + 1 < 2 ^ 64 }
        requires filled { self.filled + 1 < 2 ^ 64 }
        ensures { result ≡ limits.behind self byte }
    {
        if byte == b'\n' {
            Spot {
                line: self.line + 1,
                filled: 0,
            }
        } else {
            Spot {
                line: self.line,
                filled: self.filled + 1,
            }
        }
    }
}

/// The spot behind these bytes of a file, of which those before `from` passed no limit, where the files before
/// it have `before` bytes; else the first limit that is passed.
pub(crate) fn scan(bytes: &[u8], from: usize, before: u64, spot: Spot) -> Result<Spot, Passed>
    requires from { from ≤ length bytes.now }
    requires before { before + from ≤ LARGEST_CORPUS }
    requires at { IsAt (take from bytes.now) spot }
    requires fine { (k : ℕ) → k < from → IsFine before bytes.now k }
    ensures at { IfOk result (λ spot. IsAt bytes.now spot) }
    ensures fine { IfOk result (λ _. (k : ℕ) → k < length bytes.now → IsFine before bytes.now k) }
    ensures within { IfOk result (λ _. before + length bytes.now ≤ LARGEST_CORPUS) }
    ensures passed { IfErr result (λ passed. IsFirst before bytes.now passed) }
{
    let mut spot = spot;
    for i in from..bytes.len() {
        if spot.filled >= LONGEST_LINE {
            return Err(Passed::Line(spot.line));
        }
        if i as u64 >= LARGEST_CORPUS - before {
            return Err(Passed::Corpus(spot.line));
        }
        spot = spot.behind(bytes[i]);
    }
    Ok(spot)
}
