//! The text form of values: how one is written, and how one is read.
//!
//! Model: a value of a shape has one text form, a list of bytes in UTF-8, which `TextForm` of the
//! specifications gives.
//!
//! The contract that the layer above rests on: [`read_text`] takes exactly the text forms of the
//! shape. Where the input is none, it tells how long the longest front of the input is that is the
//! front of some text form of the shape.
#![tactic(auto)]

mod laws;
mod literal;
mod number;
mod quoted;
mod reading;
mod text_fault;
mod whole;
mod writing;

pub use laws::text_is_exact;
pub use quoted::pair_value;
pub use text_fault::TextFault;
pub use whole::read_text;
pub use writing::{
    add_bytes, add_flag, add_place, add_plain, add_quoted, add_signed, add_unsigned,
};

#[cfg(test)]
mod tests;
