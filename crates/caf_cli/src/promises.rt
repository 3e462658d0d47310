//! What a run that was played keeps, by the laws of records.
ghost use Rattle.std.specs.Prelude.{◌≡◌, ◌<◌, ◌^◌, length, true};
ghost use Rattle.caf_kinds.specs.FileChunks.{AreByteLists};
ghost use Rattle.caf_words.specs.Datum.{are_bytes};
ghost use Rattle.caf_cli.specs.Promises.{RunsKeepTheirWord};

use caf_headline::laws::complete_runs_keep_their_promises;
use caf_kinds::Kind;
use caf_pipeline::laws::{complete_text_has_index, enough_is_never_spent};
use caf_record::laws::legal_is_merged;
use caf_soundness::laws::{builtin_is_well_typed, valid_scenario_is_well_typed};
use caf_types::Octets;
use caf_typing::laws::{builtin_opens, scenarios_spare_the_conductor, valid_scenario_opens};

/// A law: the record of each play keeps the word that the product gives.
pub(crate) fn runs_keep_their_word()
    ensures { RunsKeepTheirWord }
{
    valid_scenario_opens();
    builtin_opens();
    scenarios_spare_the_conductor();
    valid_scenario_is_well_typed();
    builtin_is_well_typed();
    complete_runs_keep_their_promises();
    complete_text_has_index();
    enough_is_never_spent();
    legal_is_merged::<Kind>();
}

/// That files have bytes, and that there are no more of them than a number of 64 bits counts.
pub(crate) fn know_files(files: &[Octets])
    ensures bytes { AreByteLists files.now }
    ensures few { length files.now < 2 ^ 64 }
{
    let _ = files.len();
    for bytes in files {
        know_bytes(bytes.as_slice());
    }
}

fn know_bytes(bytes: &[u8])
    ensures { are_bytes bytes.now ≡ true }
{
    // Asking for the length tells what holds of all bytes.
    let _ = bytes.len();
}
