//! The places that an actor tells when it quits.
//!
//! Model: contracts see [`Observers`] as two sets of places, the links and the monitors, each as the
//! list of its places in rising order.
//!
//! The contract above which the actor builds: `farewell` is an exit notice to each link, then a down
//! notice to each monitor, each in order of place; the other calls put one place into one set or
//! take it out, and say whether that changed the set.
#![tactic(auto)]

mod observers;

pub use observers::Observers;
