ghost use Rattle.std.specs.Prelude.{◌≡◌, [], ◌∷◌, ◌++◌, length, slice_get, MatchOption, OnOk};
ghost use Rattle.std.specs.Option.{option_map};
ghost use Rattle.caf_script.specs.Step.{plain_step, waits_for};

use crate::{Planned, Wait};
use caf_types::Memory;
use std::alloc::Global;
use std::collections::VecDeque;
use std::marker::Model;

/// The steps of a script that are still to come, in order.
#[derive(Debug, Drop)]
pub struct Plan {
    steps: VecDeque<Planned>,
}

impl Model for Plan {
    ghost use Rattle.std.specs.Prelude.{List, map};
    ghost use Rattle.caf_script.specs.Step.{Step, plain_step};

    ghost Value = { List Step };

    ghost view = { λ it. map plain_step it.steps.items };
}

impl Plan {
    /// No step.
    pub(crate) fn new(alloc: Global) -> Plan
        ensures { result ≡ [] }
    {
        Plan {
            steps: VecDeque::new(alloc),
        }
    }

    /// Adds a step at the end.
    pub(crate) fn add(&mut self, step: Planned) -> Result<(), Memory>
        ensures { OnOk result (self.new ≡ self.old ++ plain_step step ∷ []) }
    {
        self.steps.push_back(step)?;
        Ok(())
    }

    /// How many steps there are.
    pub(crate) fn len(&self) -> usize
        ensures { result ≡ length self.now }
    {
        self.steps.len()
    }

    /// What the next step waits for; None exactly where there is none.
    pub(crate) fn wait(&self) -> Option<Wait>
        ensures { result ≡ option_map waits_for (slice_get self.now 0) }
    {
        self.steps.front().map(|step| step.waits_for())
    }

    /// Takes the next step.
    pub(crate) fn take(&mut self) -> Option<Planned>
        ensures { MatchOption result ((self.old ≡ []) × (self.new ≡ [])) (λ step. self.old ≡ plain_step step ∷ self.new) }
    {
        self.steps.pop_front()
    }
}
