//! One inspection of a type, and the forms in which its values are saved and loaded: words, JSON and text.
//!
//! A type that is [`Inspect`] tells its value as events, to any [`Save`], and is made again from the
//! events of any [`Load`]. Savers keep a form of what they were told, and loaders read one.
//! The model: a value of a shape has one list of events, and in each form the table's shape
//! decides which input is the form of which value. The layers above rest on this: what a saver's
//! `finish` gives is the form of the value that was saved, and a loader's `start` takes exactly
//! the forms.
#![tactic(auto)]

mod forms;
mod json_loader;
mod loader;
mod text_builder;
mod text_loader;
mod text_saver;
mod word_loader;
mod word_saver;

pub use caf_events::{
    EventQueue, Inspect, Item, Load, LoadFault, Save, events_are_taken, load_list, load_value,
    save_list, save_value,
};
pub use caf_json::{Json, JsonSaver, json_is_exact, value_of_json};
pub use forms::{from_json, from_text, from_words, to_json, to_text, to_words};
pub use json_loader::{InJson, JsonLoader};
pub use loader::Loader;
pub use text_loader::{InText, TextLoader};
pub use text_saver::TextSaver;
pub use word_loader::{InWords, WordLoader};
pub use word_saver::WordSaver;

#[cfg(test)]
mod tests;
