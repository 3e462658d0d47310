//! One carrier for every request: the laws of where a request is, and of how it ends.
//!
//! Model: the machine of all places on one thread (`caf_actor`, `Run`). A carrier of request `n` of
//! place `a` is an envelope, waiting or cached, that is the request or a response to it, or a hold of
//! it. In every state of every run from an opening with actors that have taken nothing, for every
//! behaviour, any number of places and any number of ticks, three counts are kept (`Counted`): the
//! carriers and the responses that resolved the request are together at most the one issue of it; while
//! it waits it is carried; and it waits or was resolved, and not both.
//!
//! Proved, each as the contract of a function of [`laws`] that does nothing, from the laws of behaviours
//! alone: [`laws::one_carrier`], [`laws::carrier_arises`], [`laws::resolves_once`],
//! [`laws::waits_or_is_resolved`], [`laws::stands_in_one_place`] and [`laws::closes_all`]; and of
//! records [`laws::legal_record_is_carried`], [`laws::resting_record_stands`] (`Requests`),
//! [`laws::every_message_is_taken`] and [`laws::none_handled_after_quitting`] (`Delivery`).
//!
//! The contract that the layers above rest on is that of [`laws::one_carrier`], and for complete records
//! that of [`laws::closes_all`].
#![tactic(auto)]

pub mod laws;
