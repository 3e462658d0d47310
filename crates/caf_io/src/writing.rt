ghost use Rattle.std.specs.Prelude.{◌≡◌, ◌≤◌, OnOk, OnErr};
ghost use Rattle.caf_io.specs.Faults.{Rose};
ghost use Rattle.caf_io.specs.Sink.{added, AddsPrefix};

use crate::{Failed, Sink};

/// The most bytes that are handed to a sink at once.
const PIECE: usize = 65536;

/// Writes the text in pieces of 65,536 bytes, the last as short as it comes.
///
/// [`Failed`] comes only where the count of faults of `out` rose in this call. Then a prefix of the
/// text was added, and no later piece is tried. A text that was written whole raised no count.
pub fn write_all<S: Sink>(out: &mut S, text: &[u8]) -> Result<(), Failed>
    ensures whole { OnOk result (S.written out.new ≡ added (S.written out.old) text.now) }
    ensures part { OnErr result (AddsPrefix (S.written out.old) (S.written out.new) text.now) }
    ensures cause { OnErr result (Rose (S.faults out.old) (S.faults out.new)) }
    ensures no_fault { OnOk result (S.faults out.new ≡ S.faults out.old) }
    ensures never_falls { S.faults out.old ≤ S.faults out.new }
{
    let mut rest = text;
    while rest.len() > PIECE {
        let (piece, later) = rest.split_at(PIECE);
        out.write(piece)?;
        rest = later;
    }
    out.write(rest)
}
