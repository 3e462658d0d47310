//! In which order an echo answers two requests.
use crate::{Choice, run_scenario};
use std::test::Fail;

/// A normal request and an urgent one, to an echo that is awake.
const AWAKE: &str = r#"{"actors":[{"name":"e","kind":"echo"}],"script":[
{"do":"request","to":"e","message":[{"text":"a"}]},
{"do":"request","to":"e","message":[{"text":"b"}],"priority":"urgent"}]}"#;

/// A text, and what ends the sleep of the echo.
const ASLEEP: &str = r#"{"actors":[{"name":"e","kind":"echo","asleep":true}],"script":[
{"do":"request","to":"e","message":[{"text":"a"}]},
{"do":"request","to":"e","message":[{"wake":null}]}]}"#;

#[test]
fn the_urgent_request_of_a_batch_is_answered_first(rt: HostRuntime) -> Result<(), Fail> {
    for (scenario, choice, text, order) in [
        (
            AWAKE,
            Choice::RoundRobin,
            "reply 1: \"a\"\nreply 2: \"b\"\n",
            [2, 1],
        ),
        (
            AWAKE,
            Choice::LastPlace,
            "reply 1: \"a\"\nreply 2: \"b\"\n",
            [2, 1],
        ),
        (
            AWAKE,
            Choice::OneEach,
            "reply 1: \"a\"\nreply 2: \"b\"\n",
            [1, 2],
        ),
        (
            ASLEEP,
            Choice::RoundRobin,
            "reply 1: \"a\"\nreply 2: unit\n",
            [2, 1],
        ),
        (
            ASLEEP,
            Choice::LastPlace,
            "reply 1: \"a\"\nreply 2: unit\n",
            [2, 1],
        ),
    ] {
        let run = run_scenario(rt.alloc(), scenario.as_bytes(), choice, false)?;
        assert_eq!(rt; run.text.as_slice(), text.as_bytes());
        assert_eq!(rt; run.answered.as_slice(), order.as_slice(), "by {choice:?}");
    }
    Ok(())
}
