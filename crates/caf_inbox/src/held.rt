//! What lies in the queue of an inbox.
ghost use Rattle.std.specs.Prelude.{◌≡◌};
ghost use Rattle.caf_message.specs.Entries.{entry_shape};
ghost use Rattle.caf_message.specs.Envelope.{plain_envelope, EnvelopeFits};

use caf_message::{Entries, Envelope};
use std::marker::{Model, PhantomData};

/// An envelope whose content, where it has one, fits the entries of `E`. Contracts see it as the envelope.
#[derive(Drop)]
pub struct Held<E: Entries> {
    envelope: Envelope,
    entries: PhantomData<E>,
}

impl<E: Entries> Model for Held<E> {
    ghost use Rattle.caf_message.specs.Entries.{entry_shape};
    ghost use Rattle.caf_message.specs.Envelope.{plain_envelope, EnvelopeFits};
    ghost use Rattle.caf_message.specs.declared.envelope.Envelope.{Envelope};

    ghost Value = { Envelope };

    ghost view = { λ held. held.envelope };

    ghost invariant = { λ held. EnvelopeFits (entry_shape E.entries) (plain_envelope held.envelope) };
}

impl<E: Entries> Held<E> {
    /// The envelope, whose content, where it has one, fits the entries.
    pub fn new(envelope: Envelope) -> Held<E>
        requires { EnvelopeFits (entry_shape E.entries) (plain_envelope envelope) }
        ensures { result ≡ envelope }
    {
        Held {
            envelope,
            entries: PhantomData,
        }
    }

    /// The envelope, of which the fact is told that the type keeps.
    pub fn open(self) -> Envelope
        ensures value { result ≡ self }
        ensures fits { EnvelopeFits (entry_shape E.entries) (plain_envelope result) }
    {
        let Held {
            envelope,
            entries: _,
        } = self;
        envelope
    }
}
