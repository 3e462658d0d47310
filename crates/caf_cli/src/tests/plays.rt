use super::{SUM, SUMS, seen};
use std::test::Fail;

/// Scenarios, each with the text that a run of it writes.
const PLAYS: [(&str, &str); 17] = [
    (SUMS, "reply 1: 5\nreply 2: error failed\nreply 3: 0\n"),
    // An actor that quit answers no more.
    (
        r#"{"actors":[{"name":"q","kind":"quitter"}],"script":[
         {"do":"request","to":"q","message":[{"leave":null},{"text":"normal"}]},
         {"do":"sync"},
         {"do":"request","to":"q","message":[{"text":"a"}]}]}"#,
        "reply 1: unit\nreply 3: error request_receiver_down\n",
    ),
    (
        r#"{"actors":[{"name":"e","kind":"echo","asleep":true}],"script":[
         {"do":"request","to":"e","message":[{"text":"a"}]},
         {"do":"exit","to":"e","reason":"failed"}]}"#,
        "reply 1: error request_receiver_down\n",
    ),
    // A request that is held is answered when it is settled, or broken when its holder quits.
    (
        r#"{"actors":[{"name":"h","kind":"holder"}],"script":[
         {"do":"request","to":"h","message":[{"text":"a"}]}]}"#,
        "reply 1: error broken_promise\n",
    ),
    (
        r#"{"actors":[{"name":"h","kind":"holder"}],"script":[
         {"do":"request","to":"h","message":[{"text":"a"}]},
         {"do":"request","to":"h","message":[{"settle":null}]}]}"#,
        "reply 1: \"a\"\nreply 2: 1\n",
    ),
    // A request is handed on from relay to relay.
    (
        r#"{"actors":[
         {"name":"r1","kind":"relay","peers":["r2"]},{"name":"r2","kind":"relay","peers":["c"]},
         {"name":"c","kind":"counter","peers":["k"]},{"name":"k","kind":"collector"},
         {"name":"m","kind":"watcher","peers":["c"]}],"script":[
         {"do":"request","to":"m","message":[{"watch":null}]},
         {"do":"exit","to":"c","reason":"failed"},
         {"do":"request","to":"m","message":[{"seen":null},{"unsigned":1}]},
         {"do":"sync"},
         {"do":"request","to":"r1","message":[{"count":null}]}]}"#,
        "reply 1: unit\nreply 3: [@3]\nreply 5: error request_receiver_down\n",
    ),
    (
        r#"{"actors":[
         {"name":"r1","kind":"relay","peers":["r2"]},{"name":"r2","kind":"relay","peers":["c"]},
         {"name":"c","kind":"counter","peers":["k"]},{"name":"k","kind":"collector"},
         {"name":"m","kind":"watcher","peers":["c"]}],"script":[
         {"do":"request","to":"r1","message":[{"count":null}]}]}"#,
        "reply 1: 0\n",
    ),
    // A failure goes along links, a normal quit does not; both are told to who watches.
    (
        r#"{"actors":[
         {"name":"q","kind":"quitter"},{"name":"w1","kind":"watcher","peers":["q"]},
         {"name":"w2","kind":"watcher","peers":["w1"]},{"name":"m","kind":"watcher","peers":["q","w1","w2"]}],"script":[
         {"do":"request","to":"w1","message":[{"link":null}]},
         {"do":"request","to":"w2","message":[{"link":null}]},
         {"do":"sync"},
         {"do":"request","to":"m","message":[{"watch":null}]},
         {"do":"request","to":"q","message":[{"leave":null},{"text":"failed"}]},
         {"do":"request","to":"m","message":[{"seen":null},{"unsigned":3}]}]}"#,
        "reply 1: unit\nreply 2: unit\nreply 4: unit\nreply 5: unit\nreply 6: [@1, @2, @3]\n",
    ),
    (
        r#"{"actors":[
         {"name":"q","kind":"quitter"},{"name":"w1","kind":"watcher","peers":["q"]},
         {"name":"w2","kind":"watcher","peers":["w1"]},{"name":"m","kind":"watcher","peers":["q","w1","w2"]}],"script":[
         {"do":"request","to":"w1","message":[{"link":null}]},
         {"do":"request","to":"w2","message":[{"link":null}]},
         {"do":"sync"},
         {"do":"request","to":"m","message":[{"watch":null}]},
         {"do":"request","to":"q","message":[{"leave":null},{"text":"normal"}]},
         {"do":"request","to":"m","message":[{"seen":null},{"unsigned":1}]}]}"#,
        "reply 1: unit\nreply 2: unit\nreply 4: unit\nreply 5: unit\nreply 6: [@1]\n",
    ),
    (
        r#"{"actors":[
         {"name":"q","kind":"quitter"},{"name":"w1","kind":"watcher","peers":["q"]},
         {"name":"w2","kind":"watcher","peers":["w1"]},{"name":"m","kind":"watcher","peers":["q","w1","w2"]}],"script":[
         {"do":"request","to":"w1","message":[{"link":null}]},
         {"do":"request","to":"w2","message":[{"link":null}]},
         {"do":"sync"},
         {"do":"request","to":"q","message":[{"leave":null},{"text":"normal"}]},
         {"do":"sync"},
         {"do":"request","to":"m","message":[{"watch":null}]},
         {"do":"request","to":"m","message":[{"seen":null},{"unsigned":1}]}]}"#,
        "reply 1: unit\nreply 2: unit\nreply 4: unit\nreply 6: unit\nreply 7: [@1]\n",
    ),
    // Children are started one by one, and share the work.
    (
        r#"{"actors":[{"name":"s","kind":"spawner","children":1}],"script":[
         {"do":"request","to":"s","message":[{"spawn":null}]},
         {"do":"request","to":"s","message":[{"spawn":null}]},
         {"do":"request","to":"s","message":[{"add":null},{"signed":2},{"signed":3}]}]}"#,
        "reply 1: @2\nreply 2: error no_place\nreply 3: 5\n",
    ),
    (
        r#"{"actors":[{"name":"s","kind":"spawner","children":1}],"script":[
         {"do":"request","to":"s","message":[{"add":null},{"signed":2},{"signed":3}]}]}"#,
        "reply 1: error failed\n",
    ),
    // Ticks.
    (
        r#"{"actors":[{"name":"h","kind":"holder"}],"script":[
         {"do":"request","to":"h","message":[{"text":"a"}],"within":1},
         {"do":"tick"},
         {"do":"request","to":"h","message":[{"settle":null}]}]}"#,
        "reply 1: error request_timeout\nreply 3: 1\n",
    ),
    (
        r#"{"actors":[{"name":"e","kind":"echo","asleep":true}],"script":[
         {"do":"await","to":"e","message":[{"text":"a"}],"within":1},
         {"do":"tick"},
         {"do":"request","to":"e","message":[{"wake":null}]}]}"#,
        "reply 1: error request_timeout\nreply 3: unit\n",
    ),
    (
        r#"{"actors":[{"name":"a","kind":"alarm"}],"script":[
         {"do":"request","to":"a","message":[{"alarm":null},{"unsigned":2}]},
         {"do":"tick"},{"do":"tick"}]}"#,
        "reply 1: 1\n",
    ),
    (
        r#"{"actors":[{"name":"a","kind":"alarm"}],"script":[
         {"do":"request","to":"a","message":[{"alarm":null},{"unsigned":2}]},
         {"do":"tick"}]}"#,
        "reply 1: error broken_promise\n",
    ),
    // A step behind a sync that is never passed isn't sent.
    (
        r#"{"actors":[{"name":"h","kind":"holder"}],"script":[
         {"do":"request","to":"h","message":[{"text":"a"}]},
         {"do":"sync"},
         {"do":"request","to":"h","message":[{"settle":null}]}]}"#,
        "reply 1: error broken_promise\nunsent 3\n",
    ),
];

#[test]
fn scenarios_are_played(rt: HostRuntime) -> Result<(), Fail> {
    for (scenario, text) in PLAYS {
        let seen = seen(
            rt.alloc(),
            &["run", "--scenario", "s.json"],
            &[("s.json", scenario.as_bytes())],
        )?;
        assert_eq!(rt; seen.status, 0);
        assert!(rt; seen.is_kept);
        assert_eq!(rt; seen.out.written(), text.as_bytes(), "{text}");
    }
    Ok(())
}

#[test]
fn a_trace_shows_each_batch(rt: HostRuntime) -> Result<(), Fail> {
    for workers in ["1", "4", "64"] {
        let seen = seen(
            rt.alloc(),
            &[
                "run",
                "--trace",
                "--scenario",
                "s.json",
                "--workers",
                workers,
            ],
            &[("s.json", SUM.as_bytes())],
        )?;
        assert_eq!(rt; seen.status, 0);
        assert_eq!(rt;
            seen.out.written(),
            b"reply 1: 5\ntrace\nt 0 1 256\nt 1 2 0\nt 0 3 1\nt 0 4 256\nt 1 5 0\n".as_slice()
        );
    }
    Ok(())
}
