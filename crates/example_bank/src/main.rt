//! A program over the library: a teller asks two accounts of a bank, and prints what it got.
//!
//! `docs/LIBRARY.md` walks through it: `types` has the types and what the actors take, `account` what an account
//! decides, `member` the behaviour, `reacting` what it does at an input, `contents` its messages, `playing` the run.
#![tactic(auto)]

mod account;
mod contents;
mod member;
mod playing;
mod reacting;
mod types;

use crate::member::{Got, Member, Role};
use crate::playing::play;
use caf_types::Memory;
use std::io;
use std::io::ErrorKind;

fn main(rt: HostRuntime) -> io::Result<()> {
    match play(rt.alloc()) {
        Ok(actors) => {
            for actor in actors.as_slice() {
                print_member(&rt, actor.behavior())?;
            }
            Ok(())
        }
        Err(Memory) => Err(io::Error::from(ErrorKind::OutOfMemory)),
    }
}

fn print_member(rt: &impl Print, member: &Member) -> io::Result<()> {
    match &member.role {
        Role::Teller(got) => {
            for one in got.as_slice() {
                print_got(rt, one)?;
            }
            Ok(())
        }
        Role::Account(account) => {
            let place = member.place;
            let balance = account.balance;
            println!(rt; "account {place} has {balance}")
        }
    }
}

fn print_got(rt: &impl Print, got: &Got) -> io::Result<()> {
    match got {
        Got::Coins(request, coins) => println!(rt; "request {request}: {coins}"),
        Got::Error(request, why) => {
            let why = why.as_str();
            println!(rt; "request {request}: {why}")
        }
    }
}
