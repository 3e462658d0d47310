ghost use Rattle.std.specs.Prelude.{◌≡◌, ◌≤◌};
ghost use Rattle.caf_io.specs.Faults.{Rose};
ghost use Rattle.caf_io.specs.Sink.{added, AddsPrefix};
ghost use Rattle.caf_cli.specs.Ends.{HasTried};

use crate::end::End;
use caf_io::{Sink, write_all};

/// Writes the text, and answers how that ended.
pub(crate) fn write_text<S: Sink>(out: &mut S, text: &[u8]) -> End
    ensures tried { HasTried text.now (S.written out.old) (S.written out.new) result }
    ensures write { result ≡ End.Write → Rose (S.faults out.old) (S.faults out.new) }
    ensures no_write_failed { result ≡ End.Done → S.faults out.new ≡ S.faults out.old }
    ensures never_falls { S.faults out.old ≤ S.faults out.new }
{
    match write_all(out, text) {
        Ok(()) => End::Done,
        Err(_) => End::Write,
    }
}
