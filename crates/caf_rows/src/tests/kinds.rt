//! One kind each, and relays that pass a question on.
use super::check_texts;
use crate::{Choice, run_scenario};
use std::test::Fail;

/// A sum, one outside 64 signed bits, and one more.
const CALC: &str = r#"{"actors":[{"name":"c","kind":"calc"}],"script":[
{"do":"request","to":"c","message":[{"add":null},{"signed":2},{"signed":3}]},
{"do":"request","to":"c","message":[{"add":null},{"signed":9223372036854775807},{"signed":1}]},
{"do":"request","to":"c","message":[{"add":null},{"signed":0},{"signed":0}]}]}"#;

/// The first of these sums alone.
const ONE_SUM: &str = r#"{"actors":[{"name":"c","kind":"calc"}],"script":[
{"do":"request","to":"c","message":[{"add":null},{"signed":2},{"signed":3}]}]}"#;

/// A quitter that is asked after it left.
const QUITTER: &str = r#"{"actors":[{"name":"q","kind":"quitter"}],"script":[
{"do":"request","to":"q","message":[{"leave":null},{"text":"normal"}]},
{"do":"sync"},
{"do":"request","to":"q","message":[{"text":"a"}]}]}"#;

/// A text that is kept for later, and then an exit.
const EXIT: &str = r#"{"actors":[{"name":"e","kind":"echo","asleep":true}],"script":[
{"do":"request","to":"e","message":[{"text":"a"}]},
{"do":"exit","to":"e","reason":"failed"}]}"#;

/// A text that is never delivered.
const HELD: &str = r#"{"actors":[{"name":"h","kind":"holder"}],"script":[
{"do":"request","to":"h","message":[{"text":"a"}]}]}"#;

/// A text that is delivered.
const SETTLED: &str = r#"{"actors":[{"name":"h","kind":"holder"}],"script":[
{"do":"request","to":"h","message":[{"text":"a"}]},
{"do":"request","to":"h","message":[{"settle":null}]}]}"#;

/// A question that two relays pass on to a counter.
const COUNT: &str = r#"{"actors":[{"name":"r1","kind":"relay","peers":["r2"]},
{"name":"r2","kind":"relay","peers":["c"]},
{"name":"c","kind":"counter","peers":["k"]},
{"name":"k","kind":"collector"},
{"name":"m","kind":"watcher","peers":["c"]}],"script":[
{"do":"request","to":"r1","message":[{"count":null}]}]}"#;

/// The same behind the counter's quit, of which a watcher is told.
const COUNT_OF_NONE: &str = r#"{"actors":[{"name":"r1","kind":"relay","peers":["r2"]},
{"name":"r2","kind":"relay","peers":["c"]},
{"name":"c","kind":"counter","peers":["k"]},
{"name":"k","kind":"collector"},
{"name":"m","kind":"watcher","peers":["c"]}],"script":[
{"do":"request","to":"m","message":[{"watch":null}]},
{"do":"exit","to":"c","reason":"failed"},
{"do":"request","to":"m","message":[{"seen":null},{"unsigned":1}]},
{"do":"sync"},
{"do":"request","to":"r1","message":[{"count":null}]}]}"#;

/// A spawner with one place, asked for two children and a sum.
const SPAWNER: &str = r#"{"actors":[{"name":"s","kind":"spawner","children":1}],"script":[
{"do":"request","to":"s","message":[{"spawn":null}]},
{"do":"request","to":"s","message":[{"spawn":null}]},
{"do":"request","to":"s","message":[{"add":null},{"signed":2},{"signed":3}]}]}"#;

/// A sum without a child.
const CHILDLESS: &str = r#"{"actors":[{"name":"s","kind":"spawner","children":1}],"script":[
{"do":"request","to":"s","message":[{"add":null},{"signed":2},{"signed":3}]}]}"#;

const ROWS: [(&str, &str); 9] = [
    (CALC, "reply 1: 5\nreply 2: error failed\nreply 3: 0\n"),
    (
        QUITTER,
        "reply 1: unit\nreply 3: error request_receiver_down\n",
    ),
    (EXIT, "reply 1: error request_receiver_down\n"),
    (HELD, "reply 1: error broken_promise\n"),
    (SETTLED, "reply 1: \"a\"\nreply 2: 1\n"),
    (COUNT, "reply 1: 0\n"),
    (
        COUNT_OF_NONE,
        "reply 1: unit\nreply 3: [@3]\nreply 5: error request_receiver_down\n",
    ),
    (
        SPAWNER,
        "reply 1: @2\nreply 2: error no_place\nreply 3: 5\n",
    ),
    (CHILDLESS, "reply 1: error failed\n"),
];

#[test]
fn kinds_answer_their_requests(rt: HostRuntime) -> Result<(), Fail> {
    check_texts(&rt, ROWS.as_slice())
}

#[test]
fn one_sum_has_one_trace(rt: HostRuntime) -> Result<(), Fail> {
    let lines = "reply 1: 5\ntrace\nt 0 1 256\nt 1 2 0\nt 0 3 1\nt 0 4 256\nt 1 5 0\n";
    for choice in [Choice::RoundRobin, Choice::LastPlace, Choice::OneEach] {
        let run = run_scenario(rt.alloc(), ONE_SUM.as_bytes(), choice, true)?;
        assert_eq!(rt; run.text.as_slice(), lines.as_bytes(), "by {choice:?}");
    }
    Ok(())
}

#[test]
fn spawners_have_as_many_children_as_places(rt: HostRuntime) -> Result<(), Fail> {
    for (scenario, fault) in [
        (
            r#"{"actors":[{"name":"s","kind":"spawner","children":254}],"script":[]}"#,
            "",
        ),
        (
            r#"{"actors":[{"name":"s","kind":"spawner","children":255}],"script":[]}"#,
            "field actors.0.children",
        ),
        (
            r#"{"actors":[{"name":"s","kind":"spawner","children":127},{"name":"t","kind":"spawner","children":127}],"script":[]}"#,
            "too many",
        ),
    ] {
        match run_scenario(rt.alloc(), scenario.as_bytes(), Choice::RoundRobin, false) {
            Ok(run) => {
                assert!(rt; run.text.is_empty());
                assert_eq!(rt; fault, "");
            }
            Err(found) => assert_eq!(rt; found.to_string(rt.alloc())?.as_str(), fault),
        }
    }
    Ok(())
}
