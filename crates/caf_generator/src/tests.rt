use crate::{Counts, generated_files, make_line};
use std::test::Fail;

#[test]
fn two_lines_are_one_file(rt: HostRuntime) -> Result<(), Fail> {
    let files = generated_files(rt.alloc(), 2)?;
    assert_eq!(rt; files.len(), 1);
    let text = files.get(0).ok_or("a file")?.as_slice();
    let lines = b"w1 w8 w43 w218 w93 w468 w343 w646\nw233 w96 w483 w810 w909 w12 w527 w566\n";
    assert_eq!(rt; text, lines.as_slice());
    assert_eq!(rt; text.len(), 34 + 38);
    Ok(())
}

#[test]
fn numbers_run_on_into_the_second_file(rt: HostRuntime) -> Result<(), Fail> {
    let files = generated_files(rt.alloc(), 1001)?;
    assert_eq!(rt; files.len(), 2);
    let first = files.get(0).ok_or("a first file")?.as_slice();
    assert_eq!(rt; first.len(), 39_028);
    assert!(rt; first.ends_with(b"\nw249 w176 w811 w522 w541 w636 w575 w734\n"));
    let second = files.get(1).ok_or("a second file")?.as_slice();
    assert_eq!(rt;
        second,
        b"w65 w256 w211 w522 w613 w924 w623 w118\n".as_slice()
    );
    assert_eq!(rt; generated_files(rt.alloc(), 1000)?.len(), 1);
    assert_eq!(rt; generated_files(rt.alloc(), 0)?.len(), 0);
    Ok(())
}

#[test]
fn counts_stand_in_one_line(rt: HostRuntime) -> Result<(), Fail> {
    let counts = Counts {
        files: 1,
        bytes: 72,
        lines: 2,
        chunks: 1,
        words: 16,
        postings: 16,
    };
    let line = make_line(rt.alloc(), &counts)?;
    let expected = b"files 1 bytes 72 lines 2 chunks 1 words 16 postings 16\n";
    assert_eq!(rt; line.as_slice(), expected.as_slice());
    Ok(())
}
