//! What a run does that indexes files undisturbed: by one source, one lines, one relay, some counters and one
//! collector, and by a script that starts the source and asks the collector.
//!
//! Model: setups, scripts and files are lists, as everywhere; a [pipeline](specs) names the places of its actors. An
//! actor is seen as the value of its kind, and what it does as the reaction that its kind has. A record is what each
//! place took; nothing here speaks of a driver or of threads.
//!
//! The contract that the layers above rest on is that of [`laws::undisturbed_files_are_indexed`]: wherever such a
//! record is at rest, the collector's index is the plain index of the files. The other laws are the steps to it: who
//! may be sent what, that nothing told is lost, and that the source tells all before all is at rest.
//! Beside them stand the numbers: before Stop such a run handles few envelopes ([`laws::undisturbed_runs_are_short`]),
//! and its stamps are low.
//!
//! [`laws::complete_files_are_indexed`] carries it over Stop, to complete records, and
//! [`laws::complete_requests_are_answered`] says what the requests of the script were answered by.
#![tactic(auto)]

pub mod laws;
