//! What a scenario without faults gives to those who play it.
//!
//! Model: a scenario is what the bytes of a document say (`IsScenarioOf` of caf_scenario); actors may be opened where
//! `CanOpen` of caf_opening holds.
//!
//! The contract that the layer above rests on is that of [`laws::valid_scenario_opens`]: the setups and the script
//! of a scenario that was read may be opened, so whoever has read one checks nothing again.
#![tactic(auto)]

pub mod laws;
