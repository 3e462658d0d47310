use super::{CATS, CATS_INDEX, seen};
use std::test::Fail;

/// Words, with a space between each two, that ask for nothing.
const REFUSED: [&str; 23] = [
    "",
    "walk A.txt",
    "run",
    "run ",
    "run -- A.txt",
    "run --help",
    "run --workers 0 A.txt",
    "run --workers 65 A.txt",
    "run --workers 00000000004 A.txt",
    "run --workers= A.txt",
    "run --worker 4 A.txt",
    "run --trace --trace A.txt",
    "run --trace=true A.txt",
    "run --max-messages 4294967297 A.txt",
    "run -x A.txt",
    "plain",
    "plain --trace A.txt",
    "check",
    "check A.txt A.txt",
    "make 0",
    "make 100001",
    "make 2 3",
    "replay A.txt A.txt",
];

/// Nothing is read or written then.
#[test]
fn words_that_are_no_command_are_refused(rt: HostRuntime) -> Result<(), Fail> {
    for line in REFUSED {
        let mut words = Vec::new(rt.alloc());
        for word in line.split(' ') {
            words.push(word)?;
        }
        let seen = seen(rt.alloc(), words.as_slice(), &[("A.txt", CATS)])?;
        assert_eq!(rt; seen.status, 1);
        assert!(rt; !seen.is_kept);
        assert_eq!(rt; seen.reads, 0);
        assert_eq!(rt; seen.out.calls(), 0);
    }
    let none = seen(rt.alloc(), &[], &[("A.txt", CATS)])?;
    assert_eq!(rt; none.status, 1);
    Ok(())
}

/// Options stand where one likes, and leading zeros count for nothing.
#[test]
fn options_may_stand_anywhere(rt: HostRuntime) -> Result<(), Fail> {
    for words in [
        ["run", "A.txt", "--workers=064"].as_slice(),
        ["run", "--workers", "1", "A.txt"].as_slice(),
        ["run", "--max-messages=4294967296", "A.txt"].as_slice(),
        ["plain", "A.txt"].as_slice(),
    ] {
        let seen = seen(rt.alloc(), words, &[("A.txt", CATS)])?;
        assert_eq!(rt; seen.status, 0);
        assert_eq!(rt; seen.out.written(), CATS_INDEX.as_bytes());
    }
    Ok(())
}
