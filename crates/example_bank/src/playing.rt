//! The actors of the program, and their run.
ghost use Rattle.std.specs.Prelude.{◌≡◌, ◌<◌, length, IfOk};
ghost use Rattle.caf_driver.specs.Opening.{IsFresh, AreFresh};
ghost use Rattle.example_bank.specs.Member.{rules};

use crate::account::Account;
use crate::member::{GIRO, Member, Role, SAVINGS};
use crate::types::{bank_interface, bank_table};
use caf_actor::Actor;
use caf_driver::{DriveEnd, Driver, RoundRobin};
use caf_types::{Memory, Notice, Seq};
use std::alloc::Global;

/// The actors at the end of their run.
pub fn play(alloc: Global) -> Result<Seq<Actor<Member>>, Memory> {
    let table = bank_table(alloc)?;
    let mut driver = Driver::new(alloc, actors(alloc)?)?;
    let mut chooser = RoundRobin::new();
    driver.play(Notice::Start)?;
    if let DriveEnd::Rest = driver.drive(&table, &mut chooser, u64::MAX)? {
        driver.play(Notice::Stop)?;
        driver.drive(&table, &mut chooser, u64::MAX)?;
    }
    Ok(driver.finish())
}

/// A teller, and the accounts that it asks.
fn actors(alloc: Global) -> Result<Seq<Actor<Member>>, Memory>
    ensures three { IfOk result (λ actors. length actors ≡ 3) }
    ensures fresh { IfOk result (λ actors. AreFresh rules actors) }
{
    let mut actors = Seq::new(alloc);
    actors.push(actor(alloc, 0, Role::Teller(Seq::new(alloc)))?)?;
    actors.push(actor(alloc, GIRO, account())?)?;
    actors.push(actor(alloc, SAVINGS, account())?)?;
    Ok(actors)
}

/// An account without coins.
fn account() -> Role {
    Role::Account(Account {
        balance: 0,
        waiting: None,
    })
}

/// An actor of that role that took nothing yet.
fn actor(alloc: Global, place: u32, role: Role) -> Result<Actor<Member>, Memory>
    requires { place < 3 }
    ensures { IfOk result (λ actor. IsFresh rules 3 place actor) }
{
    let member = Member {
        place,
        interface: bank_interface(alloc)?,
        reserve: Seq::new(alloc),
        role,
    };
    Actor::new(alloc, place, member, 0)
}
