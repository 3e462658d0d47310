//! What an actor does at a tick.
ghost use Rattle.std.specs.Prelude.{◌≡◌, OnOk};
ghost use Rattle.caf_types.specs.TypeTable.{seen};
ghost use Rattle.caf_message.specs.Entries.{HasEntries};
ghost use Rattle.caf_actor.specs.PlainForms.{reached};
ghost use Rattle.caf_actor.specs.Ticking as ticking;

use crate::post::Posts;
use crate::{Behavior, Input, Snapshot};
use caf_types::{Memory, Sec, TypeTable};
use std::alloc::Global;

impl<B: Behavior> Snapshot<B> {
    /// Counts the tick; then each request that is due fails, each delayed message that is due is sent,
    /// and at place 0 the behaviour hears of the tick. Where a reaction quits, the rest is left out.
    pub(crate) fn handle_tick(
        &mut self,
        alloc: Global,
        table: &TypeTable,
        posts: &mut Posts,
    ) -> Result<(), Memory>
        requires entries { HasEntries (seen table.now) B.entries }
        ensures { OnOk result (ticking.handle_tick B.rules (reached self.old posts.old) ≡ reached self.new posts.new) }
    {
        self.clock.advance();
        self.expire_all(alloc, table, posts)?;
        self.deliver_all(posts)?;
        self.hear_tick(alloc, table, posts)
    }

    /// Fails each request that is due, by due count, then by number.
    fn expire_all(
        &mut self,
        alloc: Global,
        table: &TypeTable,
        posts: &mut Posts,
    ) -> Result<(), Memory>
        requires entries { HasEntries (seen table.now) B.entries }
        ensures { OnOk result (ticking.expire_all B.rules (reached self.old posts.old) ≡ reached self.new posts.new) }
    {
        while let Some(waiting) = self.pending.expire(self.clock.ticks()) {
            let input = Input::Failed(waiting.tag, Sec::RequestTimeout);
            self.give(alloc, table, posts, input)?;
        }
        Ok(())
    }

    fn hear_tick(
        &mut self,
        alloc: Global,
        table: &TypeTable,
        posts: &mut Posts,
    ) -> Result<(), Memory>
        requires entries { HasEntries (seen table.now) B.entries }
        ensures { OnOk result (ticking.hear_tick B.rules (reached self.old posts.old) ≡ reached self.new posts.new) }
    {
        if self.place == 0 && self.quit.is_none() {
            return self.give(alloc, table, posts, Input::Tick);
        }
        Ok(())
    }
}

impl<B> Snapshot<B> {
    /// Sends each delayed message that is due, by due count, then in the order of adding.
    fn deliver_all(&mut self, posts: &mut Posts) -> Result<(), Memory>
        ensures { OnOk result (ticking.deliver_all (reached self.old posts.old) ≡ reached self.new posts.new) }
    {
        while let Some((to, priority, message)) = self.delays.next(self.clock.ticks()) {
            self.tell(posts, to, priority, message)?;
        }
        Ok(())
    }
}
