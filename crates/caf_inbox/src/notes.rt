//! Notes: what a lane had pushed, and what a reader had taken.

use crate::queue::Pass;
use caf_message::Entries;
use std::marker::Model;

/// What a lane had pushed when it made the note. The reader of its inbox may meet it, once.
#[derive(Drop)]
pub struct LaneNote<E: Entries> {
    pub(crate) pass: Pass<E>,
}

impl<E: Entries> Model for LaneNote<E> {
    ghost use Rattle.std.specs.Prelude.{◌≡◌, None};
    ghost use Rattle.caf_inbox.specs.declared.view.Role.TheVariants.{LaneNoted};
    ghost use Rattle.caf_inbox.specs.Ends.{LaneNoteSeen};

    ghost Value = { LaneNoteSeen };

    ghost view = { λ n. record { inbox = n.pass.web; sender = n.pass.me.view.client.sender; pushed = n.pass.me.view.client.log } };

    ghost invariant = { λ n. (n.pass.me.hand ≡ None) × (n.pass.me.spare ≡ None) × (n.pass.me.view.client.role ≡ LaneNoted) };
}

/// What a reader had taken when it made the note. A lane of its inbox may meet it, once.
#[derive(Drop)]
pub struct ReaderNote<E: Entries> {
    pub(crate) pass: Pass<E>,
}

impl<E: Entries> Model for ReaderNote<E> {
    ghost use Rattle.std.specs.Prelude.{◌≡◌, None};
    ghost use Rattle.caf_inbox.specs.declared.view.Role.TheVariants.{ReaderNoted};
    ghost use Rattle.caf_inbox.specs.Ends.{ReaderNoteSeen};

    ghost Value = { ReaderNoteSeen };

    ghost view = { λ n. record { inbox = n.pass.web; taken = n.pass.me.view.client.log } };

    ghost invariant = { λ n. (n.pass.me.hand ≡ None) × (n.pass.me.spare ≡ None) × (n.pass.me.view.client.role ≡ ReaderNoted) };
}
