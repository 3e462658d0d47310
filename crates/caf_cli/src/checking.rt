//! The command `check`.
ghost use Rattle.std.specs.Prelude.{◌≡◌, ℕ, ◌≤◌, List, false, IfOk};
ghost use Rattle.caf_io.specs.Faults.{Rose};
ghost use Rattle.caf_cli.specs.End.{has_written};
ghost use Rattle.caf_cli.specs.Quiet.{CheckEnds, check_text};

use crate::end::End;
use crate::reading::scenario_in;
use crate::writing::write_text;
use caf_io::{Files, Sink};
use caf_kinds::core_table;
use caf_scenario::Scenario;
use caf_types::{Letters, Memory, Octets, Seq};
use std::alloc::Global;

/// Writes how many actors and steps the scenario in the file of this name has.
pub(crate) fn check<F: Files, S: Sink>(
    alloc: Global,
    name: &Letters,
    files: &mut F,
    out: &mut S,
) -> End
    ensures ends { CheckEnds (F.told files.old) name.now (S.written out.old) (S.written out.new) result }
    ensures nothing { has_written result ≡ false → out.new ≡ out.old }
    ensures read { (name : List ℕ) → result ≡ End.Read name → Rose (F.faults files.old name) (F.faults files.new name) }
    ensures write { result ≡ End.Write → Rose (S.faults out.old) (S.faults out.new) }
    ensures no_read_failed { result ≡ End.Done → (name : List ℕ) → F.faults files.new name ≡ F.faults files.old name }
    ensures no_write_failed { result ≡ End.Done → S.faults out.new ≡ S.faults out.old }
    ensures same_content { F.told files.new ≡ F.told files.old }
    ensures none_falls { (name : List ℕ) → F.faults files.old name ≤ F.faults files.new name }
    ensures never_falls { S.faults out.old ≤ S.faults out.new }
{
    let Ok(table) = core_table(alloc) else {
        return End::Memory;
    };
    match scenario_in(alloc, &table, files, name) {
        Err(end) => end,
        Ok(scenario) => match text_of(alloc, &scenario) {
            Err(_) => End::Memory,
            Ok(text) => write_text(out, text.as_slice()),
        },
    }
}

/// The line that says that the scenario is one.
fn text_of(alloc: Global, scenario: &Scenario) -> Result<Octets, Memory>
    ensures { IfOk result (λ text. text ≡ check_text scenario.now) }
{
    let actors = scenario.names.len();
    let steps = scenario.script.len();
    let text = format!(in alloc; "valid: {actors} actors, {steps} steps\n")?;
    Ok(Seq::of_vec(text.into_bytes()))
}
