//! Values, and the words of 64 bits that they are spelled in.
//!
//! Model: contracts see a [`Value`] as a plain tree. Which words are the spelling of a value of a
//! shape is a relation over whole lists; reading word by word is proved to be the same relation, with
//! the place of the first fault where no values have the words as their spellings.
//!
//! The contract that the layers above rest on: [`spell`] and [`read`] are one relation. A value has
//! one spelling, no spelling begins another of its shape, and what was spelled is read again. A
//! [`Row`] writes and reads the words of its elements itself, without values between.
#![tactic(auto)]

mod laws;
mod object;
mod packing;
mod reading;
mod row;
mod scalar;
mod spelled;
mod spelling;
mod stop;
mod text;
mod value;

pub use laws::{spellings_are_prefix_free, spellings_are_read, types_stay, values_are_spelled};
pub use object::{read_object_head, write_object_head};
pub use reading::read;
pub use row::Row;
pub use scalar::{
    read_flag, read_place, read_signed, read_unit, read_word, write_flag, write_place,
    write_signed, write_unit, write_word,
};
pub use spelled::{Spelled, read_list, write_list};
pub use spelling::spell;
pub use stop::{SpellFault, Stop};
pub use text::{read_bytes, read_text, write_bytes, write_text};
pub use value::{Value, fits};

#[cfg(test)]
mod tests;
