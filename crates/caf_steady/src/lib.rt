//! What a steady actor did, told by what it took alone.
//!
//! Model: an actor is steady while it has begun, hasn't quit, awaits no response, keeps nothing for
//! later, and does nothing but tell, ask, answer, hold, settle and send exits. Its [outline](specs) is
//! its behaviour, its waiting requests and its holds; what it sends is seen without numbers and stamps.
//! `read` goes through envelopes one by one and gives the outline after them and what was sent meanwhile.
//!
//! The contract that the layers above rest on is that of [`laws::steady_actors_read_in_turn`]: after any
//! batches that let it be steady, an actor's outline and what it sent are those of reading each batch in
//! turn, its urgent envelopes first. So whoever knows what a place took, knows what it did, and needs
//! no list of waiting envelopes for it.
#![tactic(auto)]

pub mod laws;
