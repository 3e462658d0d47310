//! The behaviour of all actors of the bank.
ghost use Rattle.std.specs.Prelude.{◌≡◌};
ghost use Rattle.example_bank.specs.Types.{bank_interface};

use crate::account::Account;
use crate::reacting::{serve, tell};
use caf_actor::{Behavior, Input, Reaction};
use caf_message::Entries;
use caf_signature::Interface;
use caf_types::{Memory, Places, Sec, Seq, TypeIds, TypeTable};
use std::alloc::Global;

/// The place of the one account.
pub const GIRO: u32 = 1;

/// The place of the other one.
pub const SAVINGS: u32 = 2;

/// An actor of the bank.
#[derive(Debug, Drop)]
pub struct Member {
    pub place: u32,
    pub interface: Interface,
    pub reserve: Places,
    pub role: Role,
    pub ghost takes: { interface ≡ bank_interface },
}

/// What an actor is.
#[derive(Debug, Drop)]
pub enum Role {
    /// It asks the accounts. This is what it got.
    Teller(Seq<Got>),
    /// It has coins.
    Account(Account),
}

/// What came of the request with that number.
#[derive(Clone, Copy, Debug, Drop)]
pub enum Got {
    Coins(u32, u64),
    Error(u32, Sec),
}

impl Entries for Member {
    ghost use Rattle.example_bank.specs.Types.{bank_entries};

    ghost entries = { bank_entries };
}

impl Behavior for Member {
    ghost use Rattle.example_bank.specs.Member as spec;
    ghost use Rattle.example_bank.specs.Laws as laws;

    ghost rules = { spec.rules };

    ghost is_valid = { spec.IsMember };

    fn interface(&self) -> &Interface {
        &self.interface
    }

    fn reserve(&self) -> &Places {
        &self.reserve
    }

    fn skips(&self, _types: &TypeIds) -> bool {
        false
    }

    fn delegates(&self, _types: &TypeIds) -> bool {
        false
    }

    fn react(
        &mut self,
        alloc: Global,
        table: &TypeTable,
        input: Input,
    ) -> Result<Reaction, Memory> {
        let mut outputs = Seq::new(alloc);
        let answer = match &mut self.role {
            Role::Teller(got) => tell(alloc, table, got, &mut outputs, input)?,
            Role::Account(account) => serve(alloc, table, account, &mut outputs, input)?,
        };
        Ok(Reaction {
            outputs,
            answer,
            quit: None,
        })
    }

    ghost stays_valid = { laws.stays_valid };

    ghost stays_same_actor = { laws.stays_same_actor };

    ghost skips_inputs = { laws.skips_inputs };

    ghost fits_its_table = { laws.fits_its_table };

    ghost fits_its_entries = { laws.fits_its_entries };

    ghost answers_requests = { laws.answers_requests };

    ghost answers_as_declared = { laws.answers_as_declared };

    ghost delegates_as_told = { laws.delegates_as_told };

    ghost sends_to_peers = { laws.sends_to_peers };

    ghost sends_few = { laws.sends_few };

    ghost ticks_at_ticks = { laws.ticks_at_ticks };

    ghost stops_with_exits = { laws.stops_with_exits };
}
