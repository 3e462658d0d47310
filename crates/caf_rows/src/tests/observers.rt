//! A quit that goes along links, and a monitor that is told of those who quit.
use super::check_texts;
use std::test::Fail;

/// The quitter fails, and the failure goes along two links.
const FAILED: &str = r#"{"actors":[{"name":"q","kind":"quitter"},
{"name":"w1","kind":"watcher","peers":["q"]},
{"name":"w2","kind":"watcher","peers":["w1"]},
{"name":"m","kind":"watcher","peers":["q","w1","w2"]}],"script":[
{"do":"request","to":"w1","message":[{"link":null}]},
{"do":"request","to":"w2","message":[{"link":null}]},
{"do":"sync"},
{"do":"request","to":"m","message":[{"watch":null}]},
{"do":"request","to":"q","message":[{"leave":null},{"text":"failed"}]},
{"do":"request","to":"m","message":[{"seen":null},{"unsigned":3}]}]}"#;

/// The quitter is done, which stops at the first link.
const NORMAL: &str = r#"{"actors":[{"name":"q","kind":"quitter"},
{"name":"w1","kind":"watcher","peers":["q"]},
{"name":"w2","kind":"watcher","peers":["w1"]},
{"name":"m","kind":"watcher","peers":["q","w1","w2"]}],"script":[
{"do":"request","to":"w1","message":[{"link":null}]},
{"do":"request","to":"w2","message":[{"link":null}]},
{"do":"sync"},
{"do":"request","to":"m","message":[{"watch":null}]},
{"do":"request","to":"q","message":[{"leave":null},{"text":"normal"}]},
{"do":"request","to":"m","message":[{"seen":null},{"unsigned":1}]}]}"#;

/// The same, watched only after the quit.
const WATCHED_LATE: &str = r#"{"actors":[{"name":"q","kind":"quitter"},
{"name":"w1","kind":"watcher","peers":["q"]},
{"name":"w2","kind":"watcher","peers":["w1"]},
{"name":"m","kind":"watcher","peers":["q","w1","w2"]}],"script":[
{"do":"request","to":"w1","message":[{"link":null}]},
{"do":"request","to":"w2","message":[{"link":null}]},
{"do":"sync"},
{"do":"request","to":"q","message":[{"leave":null},{"text":"normal"}]},
{"do":"sync"},
{"do":"request","to":"m","message":[{"watch":null}]},
{"do":"request","to":"m","message":[{"seen":null},{"unsigned":1}]}]}"#;

const ROWS: [(&str, &str); 3] = [
    (
        FAILED,
        "reply 1: unit\nreply 2: unit\nreply 4: unit\nreply 5: unit\nreply 6: [@1, @2, @3]\n",
    ),
    (
        NORMAL,
        "reply 1: unit\nreply 2: unit\nreply 4: unit\nreply 5: unit\nreply 6: [@1]\n",
    ),
    (
        WATCHED_LATE,
        "reply 1: unit\nreply 2: unit\nreply 4: unit\nreply 6: unit\nreply 7: [@1]\n",
    ),
];

#[test]
fn links_hand_a_failure_on_and_monitors_are_told(rt: HostRuntime) -> Result<(), Fail> {
    check_texts(&rt, ROWS.as_slice())
}
