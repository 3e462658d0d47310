use crate::{MOST_WORDS, Owned, Tuple, TupleFault};
use caf_types::Memory;
use std::alloc::Global;
use std::test::Fail;
use std::thread;

#[test]
fn a_shared_reference_is_copied_and_a_sole_one_kept(rt: HostRuntime) -> Result<(), Fail> {
    let alloc = rt.alloc();
    let mut first = Tuple::make(alloc, &[7, 8])?;
    assert_eq!(rt; first.room(), 4_611_686_018_427_387_904);
    let mut second = first.retain()?;
    assert_eq!(rt;
        (first.room(), second.room()),
        (4_609_434_218_613_702_655, 2_251_799_813_685_248)
    );
    let mut third = first.retain()?;
    assert_eq!(rt; (first.test(), second.test(), third.test()), (3, 3, 3));
    let Owned::Copied { count, mut before } = first.own(alloc)? else {
        panic!(rt; "a reference that two others share was kept");
    };
    assert_eq!(rt; count, 3);
    first.set(0, 9);
    assert_eq!(rt; (first.word(0), first.word(1), first.test()), (9, 8, 1));
    assert_eq!(rt; (second.word(0), third.word(0), before.word(0)), (7, 7, 7));
    before.release();
    drop(second);
    assert_eq!(rt; third.test(), 1);
    assert!(rt; matches!(third.own(alloc)?, Owned::Kept));
    assert_eq!(rt; (third.len(), third.word(0), third.word(1)), (2, 7, 8));
    Ok(())
}

// Reads, retains, writes by `own` and releases: what it read at first, after its write, and by the
// reference that it had retained before.
fn work(alloc: Global, mut mine: Tuple, add: u64) -> Result<(u64, u64, u64), Memory> {
    if mine.len() == 0 || mine.room() == 0 {
        return Ok((0, 0, 0));
    }
    let first = mine.word(0);
    let mut kept = mine.retain()?;
    if let Owned::Copied { count: _, before } = mine.own(alloc)? {
        before.release();
    }
    mine.set(0, first.wrapping_add(add));
    let written = mine.word(0);
    let held = kept.word(0);
    kept.release();
    Ok((first, written, held))
}

#[test]
fn three_threads_write_and_the_caller_reads_its_own_content(rt: HostRuntime) -> Result<(), Fail> {
    let alloc = rt.alloc();
    let mut own = Tuple::make(alloc, &[7, 8])?;
    let one = own.retain()?;
    let two = own.retain()?;
    let three = own.retain()?;
    let first = thread::spawn(&rt, move || work(alloc, one, 1))?;
    let second = thread::spawn(&rt, move || work(alloc, two, 2))?;
    let third = thread::spawn(&rt, move || work(alloc, three, 3))?;
    assert_eq!(rt; first.join(&rt)?, (7, 8, 7));
    assert_eq!(rt; second.join(&rt)?, (7, 9, 7));
    assert_eq!(rt; third.join(&rt)?, (7, 10, 7));
    assert_eq!(rt; (own.word(0), own.word(1), own.test()), (7, 8, 1));
    Ok(())
}

#[test]
fn the_greatest_tuple_is_made_and_copied_and_a_word_more_is_large(
    rt: HostRuntime,
) -> Result<(), Fail> {
    let alloc = rt.alloc();
    let mut words = Vec::from_elem(alloc, 5u64, 4_194_304)?;
    words[4_194_303] = 6;
    let mut greatest = Tuple::make(alloc, words.as_slice())?;
    assert_eq!(rt; (greatest.len(), MOST_WORDS), (4_194_304, 4_194_304));
    let mut other = greatest.retain()?;
    let Owned::Copied { count, before } = greatest.own(alloc)? else {
        panic!(rt; "a reference that another shares was kept");
    };
    before.release();
    assert_eq!(rt;
        (count, greatest.word(0), greatest.word(4_194_303)),
        (2, 5, 6)
    );
    assert_eq!(rt; (other.test(), other.word(4_194_303)), (1, 6));
    words.push(7)?;
    let Err(fault) = Tuple::make(alloc, words.as_slice()) else {
        panic!(rt; "a tuple of a word too many was made");
    };
    assert_eq!(rt; fault, TupleFault::Large);
    let texts = [
        format!(in alloc; "{fault}")?,
        format!(in alloc; "{}", TupleFault::Memory)?,
    ];
    assert_eq!(rt; texts[0].as_str(), "more than 4194304 words");
    assert_eq!(rt; texts[1].as_str(), "out of memory");
    let empty = Tuple::make(alloc, &[])?;
    assert_eq!(rt; empty.len(), 0);
    Ok(())
}
