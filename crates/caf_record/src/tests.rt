ghost use Rattle.std.specs.Prelude.{◌≡◌, length, IfOk};

use crate::{RunRecord, merge, trace_text};
use caf_actor::{Journal, Plain, Taken, TakenBatch};
use caf_types::{Memory, Mid, Notice, Priority, Seq};
use std::alloc::Global;
use std::mem;
use std::test::Fail;

/// An envelope in a row: the place that took it, its batch's stamp, and its sender.
type Row = (u32, u64, u32);

fn envelope_of(sender: u32) -> Taken {
    Taken {
        sender,
        seq: 0,
        mid: Mid {
            requester: sender,
            number: 0,
            response: false,
        },
        priority: Priority::Urgent,
        stamp: 0,
        body: Plain::System(Notice::Start),
    }
}

/// What the place took; envelopes of one stamp that follow one another are a batch.
fn journal_of(alloc: Global, place: u32, rows: &[Row]) -> Result<Journal, Memory> {
    let mut journal = Seq::new(alloc);
    let mut taken = Seq::new(alloc);
    let mut now = 0;
    for (at, stamp, sender) in rows {
        if *at != place {
            continue;
        }
        if *stamp != now && !taken.is_empty() {
            let taken = mem::replace(&mut taken, Seq::new(alloc));
            journal.push(TakenBatch { stamp: now, taken })?;
        }
        now = *stamp;
        taken.push(envelope_of(*sender))?;
    }
    if !taken.is_empty() {
        journal.push(TakenBatch { stamp: now, taken })?;
    }
    Ok(journal)
}

/// The record of three places.
fn record_of(alloc: Global, rows: &[Row]) -> Result<RunRecord, Memory>
    ensures { IfOk result (λ kept. length kept.journals ≡ 3) }
{
    let mut journals = Seq::new(alloc);
    journals.push(journal_of(alloc, 0, rows)?)?;
    journals.push(journal_of(alloc, 1, rows)?)?;
    journals.push(journal_of(alloc, 2, rows)?)?;
    Ok(RunRecord {
        journals,
        starts: Seq::new(alloc),
        cut: None,
    })
}

#[test]
fn lists_and_prints_by_stamp_then_place(rt: HostRuntime) -> Result<(), Fail> {
    let rows: [(&[Row], &[(u32, u64)], &str); 5] = [
        (
            &[
                (0, 1, 256),
                (0, 3, 2),
                (0, 5, 1),
                (0, 5, 1),
                (1, 2, 0),
                (1, 3, 0),
                (2, 3, 0),
            ],
            &[(0, 0), (1, 0), (0, 1), (1, 1), (2, 0), (0, 2)],
            "t 0 1 256\nt 1 2 0\nt 0 3 2\nt 1 3 0\nt 2 3 0\nt 0 5 1*2\n",
        ),
        (
            &[(0, 1, 256), (0, 3, 1), (0, 4, 256), (1, 2, 0), (1, 5, 0)],
            &[(0, 0), (1, 0), (0, 1), (0, 2), (1, 1)],
            "t 0 1 256\nt 1 2 0\nt 0 3 1\nt 0 4 256\nt 1 5 0\n",
        ),
        (
            &[(1, 12, 2), (1, 12, 2), (1, 12, 1), (1, 12, 2), (1, 12, 256)],
            &[(1, 0)],
            "t 1 12 2*2 1 2 256\n",
        ),
        (
            &[(2, 1_099_511_627_776, 0), (2, 7, 1), (0, 8, 2)],
            &[(2, 1), (0, 0), (2, 0)],
            "t 2 7 1\nt 0 8 2\nt 2 1099511627776 0\n",
        ),
        (&[], &[], ""),
    ];
    for (taken, order, text) in rows {
        let kept = record_of(rt.alloc(), taken)?;
        assert_eq!(rt; merge(rt.alloc(), &kept)?.as_slice(), order, "{text}");
        let trace = trace_text(rt.alloc(), &kept)?;
        assert_eq!(rt; trace.as_slice(), text.as_bytes(), "{text}");
    }
    Ok(())
}
