//! The JSON form of values: how one is written, and how one is read.
//!
//! Model: which JSON values are the form of a value of a shape is a relation, `HasJson` of the
//! specifications; reading down to the first unfit part is a function, proved to be the same relation.
//! This crate and `caf_scenario` alone stand on `serde_json`.
//!
//! The contract that the layer above rests on: [`JsonSaver::finish`] gives the form of the value that was
//! saved, and [`value_of_json`] takes exactly the forms of the shape, with the path to the first unfit
//! part where the input is none.
#![tactic(auto)]

mod builder;
mod digits;
mod laws;
mod part;
mod reading;
mod saver;

pub use laws::json_is_exact;
pub use reading::value_of_json;
pub use saver::JsonSaver;
pub use serde_json::Value as Json;
