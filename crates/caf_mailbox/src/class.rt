//! The classes of envelopes.
ghost use Rattle.std.specs.Prelude.{◌≡◌, true};
ghost use Rattle.caf_message.specs.Envelope.{plain_envelope};
ghost use Rattle.caf_mailbox.specs.Caches as caches;
ghost use Rattle.caf_mailbox.specs.Class as classes;

use caf_message::{Body, Envelope};
use caf_types::Priority;

/// What an envelope is.
#[derive(Clone, Copy, Debug)]
pub(crate) enum Class {
    Notice,
    Response,
    Content,
}

/// The class of an envelope.
pub(crate) fn class_of(envelope: &Envelope) -> Class
    ensures { classes.is_of result (plain_envelope envelope.now) ≡ true }
{
    match &envelope.body {
        Body::System(_) => Class::Notice,
        Body::Failure(_) => Class::Response,
        Body::Content(_) => {
            if envelope.mid.response {
                Class::Response
            } else {
                Class::Content
            }
        }
    }
}

pub(crate) fn is_urgent(envelope: &Envelope) -> bool
    ensures { result ≡ caches.is_urgent (plain_envelope envelope.now) }
{
    match envelope.priority {
        Priority::Urgent => true,
        Priority::Normal => false,
    }
}
