//! The types of a content, and the signature that it meets.
ghost use Rattle.std.specs.Prelude.{◌≡◌, bytes_eq, is_some, IfSome};
ghost use Rattle.std.specs.Option.{option_copied};
ghost use Rattle.caf_words.specs.Several.{ids_of};
ghost use Rattle.caf_message.specs.Content.{ids_in};
ghost use Rattle.caf_actor.specs.Rules.{signature_for, is_input};

use crate::Behavior;
use caf_message::Message;
use caf_signature::{Interface, Signature};
use caf_types::TypeId;

/// Whether the content has these types.
pub(crate) fn has_types(message: &mut Message, types: &[TypeId]) -> bool
    ensures answer { result ≡ bytes_eq (ids_of types.now) (ids_in message.old.content) }
    ensures kept { message.new.content ≡ message.old.content }
{
    message.has_types(types)
}

/// The signature of the interface whose input has the types of the content; None exactly where they
/// are no input of it. It takes no memory.
pub fn signature_of<'a>(interface: &'a Interface, message: &mut Message) -> Option<&'a Signature>
    ensures found { option_copied result ≡ signature_for interface.now (ids_in message.old.content) }
    ensures kept { message.new.content ≡ message.old.content }
{
    for signature in interface.signatures().as_slice() {
        if has_types(message, signature.input.as_slice()) {
            return Some(signature);
        }
    }
    None
}

/// Whether the behaviour may delegate the content; None exactly where its types are no input of the
/// interface. It takes no memory.
pub(crate) fn passing_of<B: Behavior>(behavior: &B, message: &mut Message) -> Option<bool>
    ensures some { is_some result ≡ is_input (B.rules.interface behavior.now) (ids_in message.old.content) }
    ensures passes { IfSome result (λ passes. passes ≡ B.rules.delegates behavior.now (ids_in message.old.content)) }
    ensures kept { message.new.content ≡ message.old.content }
    ensures valid { B.is_valid behavior.now }
{
    match signature_of(behavior.interface(), message) {
        Some(signature) => Some(behavior.delegates(&signature.input)),
        None => None,
    }
}
