//! What a value is told as: its events, in order.
//!
//! A type that is [`Inspect`] tells its value as events, to any [`Save`], and is made again from the
//! events of any [`Load`]; so does a [`Value`](caf_words::Value) of a shape. Savers and loaders of a
//! form stand above.
//! The model: a value of a shape has one list of events, and taking one from the front of events is a
//! function. The layers above rest on this: `save` adds exactly the events of the value, and `load`
//! takes exactly them and means that value.
#![tactic(auto)]

mod fault;
mod fields;
mod inspection;
mod item;
mod laws;
mod lists;
mod load;
mod queue;
mod range;
mod save;
mod save_item;
mod values;

pub use fault::LoadFault;
pub use inspection::Inspect;
pub use item::Item;
pub use laws::events_are_taken;
pub use lists::{load_list, save_list};
pub use load::Load;
pub use queue::EventQueue;
pub use range::measured;
pub use save::Save;
pub use save_item::SaveItem;
pub use values::{load_value, save_value};

#[cfg(test)]
mod tests;
