//! Whole runs: values by hand.
use crate::{Choice, run_scenario};
use std::process::Abort;
use std::test::Fail;

mod echoes;
mod indexes;
mod kinds;
mod observers;
mod sharing;
mod ticks;

/// The two choosers that take different ways through a run.
const WAYS: [Choice; 2] = [Choice::RoundRobin, Choice::LastPlace];

/// That each scenario writes its text, whichever way its run takes.
fn check_texts<R: Abort + AllocGlobal>(rt: &R, rows: &[(&str, &str)]) -> Result<(), Fail> {
    for (scenario, text) in rows {
        for way in WAYS {
            let run = run_scenario(rt.alloc(), scenario.as_bytes(), way, false)?;
            assert_eq!(rt;
                run.text.as_slice(),
                text.as_bytes(),
                "{scenario} by {way:?}"
            );
        }
    }
    Ok(())
}
