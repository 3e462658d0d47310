//! The command `plain`.
ghost use Rattle.std.specs.Prelude.{◌≡◌, ℕ, ◌≤◌, List, length, false, IfOk};
ghost use Rattle.caf_io.specs.Faults.{Rose};
ghost use Rattle.caf_index.specs.IndexText.{index_text_of};
ghost use Rattle.caf_index.specs.PlainIndex.{plain_index_of};
ghost use Rattle.caf_cli.specs.End.{has_written};
ghost use Rattle.caf_cli.specs.Quiet.{PlainEnds};

use crate::end::{End, LimitKind};
use crate::reading::{are_few, corpus_of};
use crate::writing::write_text;
use caf_index::{index_text, plain_index};
use caf_io::{Files, Sink};
use caf_types::{Letters, Memory, Octets, Seq};
use std::alloc::Global;

/// Writes the plain index of the files of these names.
pub(crate) fn plain<F: Files, S: Sink>(
    alloc: Global,
    names: &Seq<Letters>,
    files: &mut F,
    out: &mut S,
) -> End
    ensures ends { PlainEnds (F.told files.old) names.now (S.written out.old) (S.written out.new) result }
    ensures nothing { has_written result ≡ false → out.new ≡ out.old }
    ensures read { (name : List ℕ) → result ≡ End.Read name → Rose (F.faults files.old name) (F.faults files.new name) }
    ensures write { result ≡ End.Write → Rose (S.faults out.old) (S.faults out.new) }
    ensures no_read_failed { result ≡ End.Done → (name : List ℕ) → F.faults files.new name ≡ F.faults files.old name }
    ensures no_write_failed { result ≡ End.Done → S.faults out.new ≡ S.faults out.old }
    ensures same_content { F.told files.new ≡ F.told files.old }
    ensures none_falls { (name : List ℕ) → F.faults files.old name ≤ F.faults files.new name }
    ensures never_falls { S.faults out.old ≤ S.faults out.new }
{
    if !are_few(names) {
        return End::Limit(LimitKind::Files, 0, 0);
    }
    match corpus_of(alloc, files, names) {
        Err(end) => end,
        Ok(corpus) => match text_of(alloc, names, &corpus) {
            Err(_) => End::Memory,
            Ok(text) => write_text(out, text.as_slice()),
        },
    }
}

/// The text of the plain index of the files, under these names.
fn text_of(alloc: Global, names: &Seq<Letters>, corpus: &Seq<Octets>) -> Result<Octets, Memory>
    ensures { IfOk result (λ text. text ≡ index_text_of names.now (plain_index_of corpus.now)) }
{
    let index = plain_index(alloc, corpus)?;
    index_text(alloc, names, &index)
}
