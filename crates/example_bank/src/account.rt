//! What an account does at a request.
ghost use Rattle.std.specs.Prelude.{◌≡◌};
ghost use Rattle.example_bank.specs.Account as spec;

use caf_actor::Origin;

/// An account: its coins, and the request that waits for more of them.
#[derive(Clone, Copy, Debug, Drop)]
pub struct Account {
    pub balance: u64,
    pub waiting: Option<Waiting>,
}

/// A request that is held until there are so many coins.
#[derive(Clone, Copy, Debug, Drop)]
pub struct Waiting {
    pub requester: u32,
    pub number: u64,
    pub coins: u64,
}

/// What an account is asked.
#[derive(Clone, Copy, Debug, Drop)]
pub enum Ask {
    Deposit(u64),
    Withdraw(u64),
    WaitFor(u64),
    Balance,
}

/// What it does: what it is then, which request it answers that waited, and how it answers.
#[derive(Clone, Copy, Debug, Drop)]
pub struct Outcome {
    pub account: Account,
    pub released: Option<Waiting>,
    pub reply: Reply,
}

/// How a request is answered: by the balance, by an error, or later.
#[derive(Clone, Copy, Debug, Drop)]
pub enum Reply {
    Balance,
    Refused,
    Later,
}

impl Account {
    /// Refused are coins that aren't there, more than a balance can be, and a second request that would wait.
    pub fn decide(self, origin: &Origin, ask: Option<Ask>) -> Outcome
        ensures { result ≡ spec.decide self origin.now ask }
    {
        match ask {
            Some(Ask::Deposit(coins)) => self.settle(self.balance.checked_add(coins)),
            Some(Ask::Withdraw(coins)) => self.settle(self.balance.checked_sub(coins)),
            Some(Ask::WaitFor(coins)) if self.balance < coins => self.hold(origin, coins),
            Some(Ask::WaitFor(_)) | Some(Ask::Balance) => self.answer(Reply::Balance),
            None => self.answer(Reply::Refused),
        }
    }

    /// All stays as it is.
    fn answer(self, reply: Reply) -> Outcome
        ensures { result ≡ spec.answered self reply }
    {
        Outcome {
            account: self,
            released: None,
            reply,
        }
    }

    /// The new balance, where there is one, is answered, also to the request that waits, if it is enough.
    fn settle(self, balance: Option<u64>) -> Outcome
        ensures { result ≡ spec.settled self balance }
    {
        let Some(balance) = balance else {
            return self.answer(Reply::Refused);
        };
        let (waiting, released) = match self.waiting {
            Some(waiting) if waiting.coins <= balance => (None, Some(waiting)),
            waiting => (waiting, None),
        };
        Outcome {
            account: Account { balance, waiting },
            released,
            reply: Reply::Balance,
        }
    }

    /// A request waits, unless another one does.
    fn hold(self, origin: &Origin, coins: u64) -> Outcome
        ensures { result ≡ spec.held self origin.now coins }
    {
        if self.waiting.is_some() || origin.mid.number == 0 {
            return self.answer(Reply::Refused);
        }
        let waiting = Some(Waiting {
            requester: origin.mid.requester,
            number: origin.mid.number,
            coins,
        });
        Outcome {
            account: Account { waiting, ..self },
            released: None,
            reply: Reply::Later,
        }
    }
}
