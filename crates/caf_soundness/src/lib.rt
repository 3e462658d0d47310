//! What types do for a run of a valid scenario: nobody is told what it doesn't take.
//!
//! Model: a record is that of caf_actor, over actors that begin as `opening_of` of caf_opening says; what an actor
//! takes is the interface of its kind.
//!
//! The contract that the layer above rests on is that of [`laws::valid_scenario_is_well_typed`]: in each legal record
//! of a valid scenario content goes only to actors that take it, requests end as they were declared, and so neither
//! `unexpected_message` nor `unexpected_response` is ever sent or given.
#![tactic(auto)]

pub mod laws;
