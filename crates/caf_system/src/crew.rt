//! A crew over bodies.
ghost use Rattle.std.specs.Prelude.{◌<◌, ◌≤◌, ◌^◌, length, IfOk};
ghost use Rattle.caf_types.specs.TypeTable.{seen};
ghost use Rattle.caf_message.specs.Entries.{HasEntries};
ghost use Rattle.caf_system.specs.Body.{HaveGoneOn};

use crate::body::Body;
use caf_actor::Behavior;
use caf_sched::{Crewed, Gate, run_crew};
use caf_types::{Memory, Places, TypeTable};
use std::alloc::Global;
use std::sync::Wait;
use std::thread::Threads;

/// Gives turns to the bodies as [`run_crew`] does, until the budget is spent or no worker finds a ticket. All come back,
/// in order, and each that isn't broken went on from where it was.
pub fn run_bodies<B: Behavior + Send, G: Gate, R: Threads + Wait + Sync>(
    rt: &R,
    alloc: Global,
    table: &TypeTable,
    bodies: Vec<Body<B>>,
    first: &Places,
    gate: &G,
    workers: u32,
    budget: u64,
) -> Result<Crewed<Body<B>>, Memory>
    requires bodies { (0 < length bodies.items) × (length bodies.items < 2 ^ 32) }
    requires workers { (0 < workers) × (workers ≤ 64) }
    requires entries { HasEntries (seen table.now) B.entries }
    ensures { IfOk result (λ c. HaveGoneOn B.rules bodies.items c.bodies.items) }
{
    let crewed = run_crew(rt, alloc, table, bodies, first, gate, workers, budget)?;
    Ok(crewed)
}
