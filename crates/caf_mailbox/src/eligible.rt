use caf_message::Envelope;

/// Which responses may be handled now.
#[derive(Clone, Copy, Debug, PartialEq, Eq)]
pub enum Awaited {
    /// Each of them.
    Any,
    /// Those to the request of this number.
    Only(u64),
    /// None.
    Nothing,
}

/// A test that says which envelopes may be handled now.
///
/// Its meaning is a function of the envelope's plain form. A look at a content counts as reads of its
/// tuple, so the test takes the envelope as `&mut`; it changes no field and no content of it. Of
/// responses and contents it tells more without a look, so that none is looked at in vain.
pub trait Eligible {
    ghost use Rattle.std.specs.Prelude.{◌≡◌, Bool, true, false};
    ghost use Rattle.caf_message.specs.declared.envelope.Taken.{Taken};
    ghost use Rattle.caf_message.specs.Envelope.{plain_envelope, is_response, is_content};
    ghost use Rattle.caf_mailbox.specs.Awaited.{is_awaited};

    /// Which envelopes may be handled now, by their plain form.
    ghost test: { Self → Taken → Bool };

    /// Which responses may be handled now.
    fn awaits(&self) -> Awaited
        ensures { (e : Taken) → is_response e ≡ true → test self.now e ≡ is_awaited result e.mid.number };

    /// Whether some content may be handled now. Where it says no, no content may.
    fn takes_contents(&self) -> bool
        ensures { result ≡ false → (e : Taken) → is_content e ≡ true → test self.now e ≡ false };

    /// Whether the envelope may be handled now.
    fn eligible(&self, envelope: &mut Envelope) -> bool
        ensures answer { result ≡ test self.now (plain_envelope envelope.old) }
        ensures kept { plain_envelope envelope.new ≡ plain_envelope envelope.old };
}
