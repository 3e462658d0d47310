ghost use Rattle.std.specs.Prelude.{◌≡◌, map, IfOk, codes};
ghost use Rattle.clap.specs.Words.{found_of, rows_of};
ghost use Rattle.caf_command.specs.Clap.{vals, traced_by};

use crate::given::Given;
use caf_types::{Letters, Memory, Seq};
use clap::ArgMatches;
use std::alloc::Global;

/// The values of the options and the files, as they were matched.
pub(crate) fn given_of(alloc: Global, matches: &ArgMatches<'_>) -> Result<Given, Memory>
    ensures scenarios { IfOk result (λ given. given.scenarios ≡ vals (codes "scenario") (rows_of (found_of matches.now))) }
    ensures workers { IfOk result (λ given. given.workers ≡ vals (codes "workers") (rows_of (found_of matches.now))) }
    ensures budgets { IfOk result (λ given. given.budgets ≡ vals (codes "max-messages") (rows_of (found_of matches.now))) }
    ensures traces { IfOk result (λ given. given.traces ≡ traced_by (vals (codes "trace") (rows_of (found_of matches.now)))) }
    ensures files { IfOk result (λ given. given.files ≡ vals (codes "files") (rows_of (found_of matches.now))) }
{
    let scenarios = values_under(alloc, matches, "scenario")?;
    let workers = values_under(alloc, matches, "workers")?;
    let budgets = values_under(alloc, matches, "max-messages")?;
    let trace = values_under(alloc, matches, "trace")?;
    let files = values_under(alloc, matches, "files")?;
    Ok(Given {
        scenarios,
        workers,
        budgets,
        traces: count_traces(trace.as_slice()),
        files,
    })
}

/// 1 where the first value says that `--trace` was there, else 0.
fn count_traces(values: &[Letters]) -> usize
    ensures { result ≡ traced_by values.now }
{
    match values {
        [] => 0,
        [first, ..] => { if first.as_str() == "true" { 1 } else { 0 } }
    }
}

/// The values that were matched under this id.
fn values_under(alloc: Global, matches: &ArgMatches<'_>, id: &str) -> Result<Seq<Letters>, Memory>
    ensures { IfOk result (λ values. values ≡ vals id.now (rows_of (found_of matches.now))) }
{
    match matches.get_raw(id) {
        None => Ok(Seq::new(alloc)),
        Some(texts) => copied(alloc, texts),
    }
}

fn copied(alloc: Global, texts: &[&str]) -> Result<Seq<Letters>, Memory>
    ensures { IfOk result (λ copies. copies ≡ map (λ text. text.now) texts.now) }
{
    let mut copies = Seq::new(alloc);
    for text in texts {
        copies.push(Letters::of(alloc, text)?)?;
    }
    Ok(copies)
}
