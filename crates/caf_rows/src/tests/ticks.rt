//! Time-outs and alarms.
use super::check_texts;
use std::test::Fail;

/// A held text whose time is over, and then a settle.
const HOLDER: &str = r#"{"actors":[{"name":"h","kind":"holder"}],"script":[
{"do":"request","to":"h","message":[{"text":"a"}],"within":1},
{"do":"tick"},
{"do":"request","to":"h","message":[{"settle":null}]}]}"#;

/// A text that is kept for later and awaited until its time is over.
const ECHO: &str = r#"{"actors":[{"name":"e","kind":"echo","asleep":true}],"script":[
{"do":"await","to":"e","message":[{"text":"a"}],"within":1},
{"do":"tick"},
{"do":"request","to":"e","message":[{"wake":null}]}]}"#;

/// An alarm after two ticks of two.
const ALARM: &str = r#"{"actors":[{"name":"a","kind":"alarm"}],"script":[
{"do":"request","to":"a","message":[{"alarm":null},{"unsigned":2}]},
{"do":"tick"},
{"do":"tick"}]}"#;

/// An alarm after two ticks, of which one comes.
const EARLY: &str = r#"{"actors":[{"name":"a","kind":"alarm"}],"script":[
{"do":"request","to":"a","message":[{"alarm":null},{"unsigned":2}]},
{"do":"tick"}]}"#;

const ROWS: [(&str, &str); 4] = [
    (HOLDER, "reply 1: error request_timeout\nreply 3: 1\n"),
    (ECHO, "reply 1: error request_timeout\nreply 3: unit\n"),
    (ALARM, "reply 1: 1\n"),
    (EARLY, "reply 1: error broken_promise\n"),
];

#[test]
fn requests_end_and_alarms_ring_at_their_ticks(rt: HostRuntime) -> Result<(), Fail> {
    check_texts(&rt, ROWS.as_slice())
}
