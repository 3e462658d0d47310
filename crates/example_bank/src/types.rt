//! The types that the bank speaks with, and what its actors take.
ghost use Rattle.std.specs.Prelude.{◌≡◌, IfOk};
ghost use Rattle.caf_types.specs.TypeTable.{seen};
ghost use Rattle.example_bank.specs.Types.{bank, bank_interface, signature_of};

use caf_kinds::{Atom, One, Two, Unsigned};
use caf_signature::{Interface, Signature};
use caf_types::{Memory, Seq, TableFault, TypeTable, type_block};
use caf_words::Row;
use std::alloc::Global;

/// `deposit`, which stands before a number of coins.
pub type Deposit = Atom<300>;

/// `withdraw`, which stands before a number of coins.
pub type Withdraw = Atom<301>;

/// `wait_for`, which stands before a number of coins.
pub type WaitFor = Atom<302>;

/// `balance`, which stands alone.
pub type Balance = Atom<303>;

/// The built-in types, and those of the bank.
pub fn bank_table(alloc: Global) -> Result<TypeTable, Memory>
    ensures { IfOk result (λ table. seen table ≡ bank) }
{
    let mut table = TypeTable::new(alloc)?;
    let added =
        type_block!(alloc, table, bank, 300, { deposit: Unit, withdraw: Unit, wait_for: Unit, balance: Unit });
    match added {
        Ok(()) => Ok(table),
        Err(TableFault::Memory) => Err(Memory),
        Err(_) => unreachable!(),
    }
}

/// What all actors of the bank take. Each request is answered by a number of coins.
pub fn bank_interface(alloc: Global) -> Result<Interface, Memory>
    ensures { IfOk result (λ interface. interface ≡ bank_interface) }
{
    let mut list = Seq::new(alloc);
    list.push(takes::<Two<Deposit, Unsigned>>(alloc)?)?;
    list.push(takes::<Two<Withdraw, Unsigned>>(alloc)?)?;
    list.push(takes::<Two<WaitFor, Unsigned>>(alloc)?)?;
    list.push(takes::<One<Balance>>(alloc)?)?;
    match Interface::new(alloc, list) {
        Ok(interface) => Ok(interface),
        Err(_) => unreachable!(),
    }
}

/// Content of the row's types is answered by a number of coins.
fn takes<I: Row>(alloc: Global) -> Result<Signature, Memory>
    ensures { IfOk result (λ signature. signature ≡ signature_of I.ids) }
{
    let input = I::types(alloc)?;
    let result = One::<Unsigned>::types(alloc)?;
    Ok(Signature { input, result })
}
