//! What a typed actor takes and answers, and which actor stands under which name.
//!
//! Model: contracts see an [`Interface`] as the list of its signatures, whose inputs differ, and a
//! [`Registry`] as the finite map from names to places with interfaces.
//!
//! The contract above which the layers build: `assignable` is true exactly where each signature of
//! the one interface is one of the other, `result_of` tells the declared result of an input, and a
//! registered name is never registered again.
#![tactic(auto)]

mod interface;
mod registry;

pub use interface::{Interface, InterfaceFault, Signature, assignable, result_of};
pub use registry::{FindFault, Registry, RegistryFault};

#[cfg(test)]
mod tests;
