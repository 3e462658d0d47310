ghost use Rattle.std.specs.Prelude.{◌≡◌};
ghost use Rattle.caf_types.specs.TypeTable.{seen};
ghost use Rattle.caf_kinds.specs.Core.{core};

use crate::elements::{Contents, is_large};
use crate::{builtin, read_scenario};
use caf_kinds::{KindName, Step, core_table};
use caf_types::{Priority, Seq, TypeId, TypeIds, TypeTable};
use caf_words::Value;
use std::alloc::Global;
use std::test::Fail;

/// Documents that are out of form, with the first fault of each.
const OUT_OF_FORM: [(&str, &str); 58] = [
    ("", "not JSON"),
    ("{", "not JSON"),
    (r#"{"actors":[],"script":[]}}"#, "not JSON"),
    ("[]", "field "),
    ("1e400", "not JSON"),
    ("{}", "field actors"),
    (r#"{"script":[]}"#, "field actors"),
    (r#"{"actors":[]}"#, "field script"),
    (r#"{"actors":{},"script":1}"#, "field actors"),
    (r#"{"actors":[{}]}"#, "field actors.0.name"),
    (r#"{"actors":[],"script":{},"a":1}"#, "field script"),
    (r#"{"b":1,"actors":[],"script":[],"a":2}"#, "field a"),
    (r#"{"actors":[],"script":[],"":1}"#, "field "),
    (r#"{"actors":[],"script":[],"x.y":1}"#, "field x.y"),
    (r#"{"actors":[1],"script":[]}"#, "field actors.0"),
    (
        r#"{"actors":[{"name":"A","kind":1}],"script":[]}"#,
        "field actors.0.name",
    ),
    (
        r#"{"actors":[{"name":"","kind":1}],"script":[]}"#,
        "field actors.0.name",
    ),
    (
        r#"{"actors":[{"name":"a"}],"script":[]}"#,
        "field actors.0.kind",
    ),
    (
        r#"{"actors":[{"name":"a","kind":1,"peers":1}],"script":[]}"#,
        "field actors.0.kind",
    ),
    (
        r#"{"actors":[{"name":"a","kind":"x","peers":{}}],"script":[]}"#,
        "field actors.0.peers",
    ),
    (
        r#"{"actors":[{"name":"a","kind":"x","peers":["b",1,"C"]}],"script":[]}"#,
        "field actors.0.peers.1",
    ),
    (
        r#"{"actors":[{"name":"a","kind":"x","peers":["B"],"z":1}],"script":[]}"#,
        "field actors.0.peers.0",
    ),
    (
        r#"{"actors":[{"name":"a","kind":"echo","asleep":0}],"script":[]}"#,
        "field actors.0.asleep",
    ),
    (
        r#"{"actors":[{"name":"a","kind":"calc","asleep":true}],"script":[]}"#,
        "field actors.0.asleep",
    ),
    (
        r#"{"actors":[{"name":"a","kind":"x","asleep":true}],"script":[]}"#,
        "field actors.0.asleep",
    ),
    (
        r#"{"actors":[{"name":"a","kind":"echo","children":1}],"script":[]}"#,
        "field actors.0.children",
    ),
    (
        r#"{"actors":[{"name":"a","kind":"spawner","children":255}],"script":[]}"#,
        "field actors.0.children",
    ),
    (
        r#"{"actors":[{"name":"a","kind":"spawner","children":1.0}],"script":[]}"#,
        "field actors.0.children",
    ),
    (
        r#"{"actors":[{"name":"a","kind":"spawner","children":-1}],"script":[]}"#,
        "field actors.0.children",
    ),
    (
        r#"{"actors":[{"name":"a","kind":"spawner","children":-0}],"script":[]}"#,
        "field actors.0.children",
    ),
    (
        r#"{"actors":[{"name":"a","kind":"spawner","asleep":true}],"script":[]}"#,
        "field actors.0.asleep",
    ),
    (
        r#"{"actors":[{"name":"a","kind":"x","z":1,"b":1},{}],"script":[]}"#,
        "field actors.0.b",
    ),
    (
        r#"{"actors":[{"name":"a","kind":"x"},{}],"script":[]}"#,
        "field actors.1.name",
    ),
    (r#"{"actors":[],"script":[1]}"#, "field script.0"),
    (r#"{"actors":[],"script":[{}]}"#, "field script.0.do"),
    (
        r#"{"actors":[],"script":[{"do":"go","a":1}]}"#,
        "field script.0.do",
    ),
    (
        r#"{"actors":[],"script":[{"do":"tell"}]}"#,
        "field script.0.to",
    ),
    (
        r#"{"actors":[],"script":[{"do":"tell","to":"A","message":1}]}"#,
        "field script.0.to",
    ),
    (
        r#"{"actors":[],"script":[{"do":"tell","to":"a"}]}"#,
        "field script.0.message",
    ),
    (
        r#"{"actors":[],"script":[{"do":"tell","to":"a","message":[],"priority":1}]}"#,
        "field script.0.message",
    ),
    (
        r#"{"actors":[],"script":[{"do":"tell","to":"a","message":{}}]}"#,
        "field script.0.message",
    ),
    (
        r#"{"actors":[],"script":[{"do":"tell","to":"a","message":[1],"priority":"high"}]}"#,
        "field script.0.priority",
    ),
    (
        r#"{"actors":[],"script":[{"do":"tell","to":"a","message":[1],"within":1}]}"#,
        "field script.0.within",
    ),
    (
        r#"{"actors":[],"script":[{"do":"request","to":"a","message":[1],"within":0}]}"#,
        "field script.0.within",
    ),
    (
        r#"{"actors":[],"script":[{"do":"await","to":"a","message":[1],"within":1001}]}"#,
        "field script.0.within",
    ),
    (
        r#"{"actors":[],"script":[{"do":"await","to":"a","message":[1],"within":null}]}"#,
        "field script.0.within",
    ),
    (
        r#"{"actors":[],"script":[{"do":"request","to":"a","message":[1],"reason":1,"x":1}]}"#,
        "field script.0.reason",
    ),
    (
        r#"{"actors":[],"script":[{"do":"exit","reason":"kill"}]}"#,
        "field script.0.to",
    ),
    (
        r#"{"actors":[],"script":[{"do":"exit","to":"a"}]}"#,
        "field script.0.reason",
    ),
    (
        r#"{"actors":[],"script":[{"do":"exit","to":"a","reason":"later"}]}"#,
        "field script.0.reason",
    ),
    (
        r#"{"actors":[],"script":[{"do":"exit","to":"a","reason":"kill","message":[]}]}"#,
        "field script.0.message",
    ),
    (
        r#"{"actors":[],"script":[{"do":"sync","to":"a"}]}"#,
        "field script.0.to",
    ),
    (
        r#"{"actors":[],"script":[{"do":"tick","within":1}]}"#,
        "field script.0.within",
    ),
    (
        r#"{"actors":[],"script":[{"do":"sync"},{"do":"tick"},{"do":"wait"}]}"#,
        "field script.2.do",
    ),
    (
        r#"{"actors":[],"script":[{"do":"go","do":"sync"}]}"#,
        "valid",
    ),
    (
        r#"{"actors":[],"script":[{"do":"sync","do":"go"}]}"#,
        "field script.0.do",
    ),
    (
        r#"{"actors":[],"script":[{"do":"sync"}],"z":1,"\u007f":1}"#,
        "field z",
    ),
    (r#"{"actors":[],"script":[]}"#, "valid"),
];

/// Documents in form whose actors or targets are none, with the first fault of each.
const KINDS_AND_NAMES: [(&str, &str); 12] = [
    (
        r#"{"actors":[{"name":"a","kind":"conductor"}],"script":[]}"#,
        "kind conductor",
    ),
    (
        r#"{"actors":[{"name":"a","kind":""}],"script":[]}"#,
        "kind ",
    ),
    (
        r#"{"actors":[{"name":"conductor","kind":"Echo"}],"script":[]}"#,
        "kind Echo",
    ),
    (
        r#"{"actors":[{"name":"conductor","kind":"echo","peers":["a"]}],"script":[]}"#,
        "name conductor twice",
    ),
    (
        r#"{"actors":[{"name":"a","kind":"echo"},{"name":"a","kind":"calc"},{"name":"b","kind":"x"}],"script":[]}"#,
        "name a twice",
    ),
    (
        r#"{"actors":[{"name":"a","kind":"echo"},{"name":"b","kind":"x"},{"name":"a","kind":"calc"}],"script":[]}"#,
        "kind x",
    ),
    (
        r#"{"actors":[{"name":"a","kind":"echo","peers":["b"]},{"name":"a","kind":"calc"}],"script":[]}"#,
        "field actors.0.peers",
    ),
    (
        r#"{"actors":[{"name":"a","kind":"echo"},{"name":"b","kind":"calc","peers":["c","c"]}],"script":[{"do":"exit","to":"d","reason":"kill"}]}"#,
        "field actors.1.peers",
    ),
    (
        r#"{"actors":[{"name":"a","kind":"x"}],"script":[{"do":"exit","to":"b","reason":"kill"}]}"#,
        "kind x",
    ),
    (
        r#"{"actors":[],"script":[{"do":"exit","to":"a","reason":"kill"}]}"#,
        "unknown a",
    ),
    (
        r#"{"actors":[],"script":[{"do":"exit","to":"conductor","reason":"kill"}]}"#,
        "unknown conductor",
    ),
    (
        r#"{"actors":[],"script":[{"do":"tell","to":"a","message":[1]}]}"#,
        "unknown a",
    ),
];

/// Documents whose peers are none, or not as they must be.
const PEERS: [(&str, &str); 16] = [
    (
        r#"{"actors":[{"name":"c","kind":"counter"}],"script":[]}"#,
        "field actors.0.peers",
    ),
    (
        r#"{"actors":[{"name":"c","kind":"counter","peers":["k","k"]}],"script":[]}"#,
        "field actors.0.peers",
    ),
    (
        r#"{"actors":[{"name":"c","kind":"counter","peers":["k"]}],"script":[]}"#,
        "unknown k",
    ),
    (
        r#"{"actors":[{"name":"c","kind":"counter","peers":["conductor"]}],"script":[]}"#,
        "unknown conductor",
    ),
    (
        r#"{"actors":[{"name":"c","kind":"counter","peers":["k"]},{"name":"k","kind":"calc"}],"script":[]}"#,
        "interface of k for c",
    ),
    (
        r#"{"actors":[{"name":"c","kind":"counter","peers":["k"]},{"name":"k","kind":"collector"}],"script":[]}"#,
        "valid",
    ),
    (
        r#"{"actors":[{"name":"s","kind":"source","peers":["k"]},{"name":"k","kind":"collector"}],"script":[]}"#,
        "field actors.0.peers",
    ),
    (
        r#"{"actors":[{"name":"s","kind":"source","peers":["l","k"]},{"name":"l","kind":"lines","peers":["k"]},{"name":"k","kind":"collector"}],"script":[]}"#,
        "valid",
    ),
    (
        r#"{"actors":[{"name":"s","kind":"source","peers":["k","l"]},{"name":"l","kind":"lines","peers":["k"]},{"name":"k","kind":"collector"}],"script":[]}"#,
        "interface of k for s",
    ),
    (
        r#"{"actors":[{"name":"s","kind":"source","peers":["l","l"]},{"name":"l","kind":"lines","peers":["k"]},{"name":"k","kind":"collector"}],"script":[]}"#,
        "interface of l for s",
    ),
    (
        r#"{"actors":[{"name":"r","kind":"relay","peers":["l"]},{"name":"l","kind":"lines","peers":["k"]},{"name":"k","kind":"collector"}],"script":[]}"#,
        "interface of l for r",
    ),
    (
        r#"{"actors":[{"name":"r","kind":"relay","peers":["r","x"]}],"script":[]}"#,
        "unknown x",
    ),
    (
        r#"{"actors":[{"name":"r","kind":"relay","peers":["e","x"]},{"name":"e","kind":"echo"}],"script":[]}"#,
        "interface of e for r",
    ),
    (
        r#"{"actors":[{"name":"w","kind":"watcher","peers":["w","w"]}],"script":[]}"#,
        "valid",
    ),
    (
        r#"{"actors":[{"name":"s","kind":"spawner","children":254}],"script":[]}"#,
        "valid",
    ),
    (
        r#"{"actors":[{"name":"a","kind":"spawner","children":127},{"name":"b","kind":"spawner","children":127}],"script":[]}"#,
        "too many",
    ),
];

/// Documents whose messages are none, or not their targets', with the first fault of each.
const MESSAGES: [(&str, &str); 15] = [
    (
        r#"{"actors":[{"name":"k","kind":"calc"}],"script":[{"do":"tell","to":"k","message":[1]}]}"#,
        "field script.0.message.0",
    ),
    (
        r#"{"actors":[{"name":"k","kind":"calc"}],"script":[{"do":"tell","to":"k","message":[{"add":null},{}]}]}"#,
        "field script.0.message.1",
    ),
    (
        r#"{"actors":[{"name":"k","kind":"calc"}],"script":[{"do":"tell","to":"k","message":[{"add":null,"sub":null}]}]}"#,
        "field script.0.message.0",
    ),
    (
        r#"{"actors":[{"name":"k","kind":"calc"}],"script":[{"do":"tell","to":"k","message":[{"plus":null}]}]}"#,
        "field script.0.message.0",
    ),
    (
        r#"{"actors":[{"name":"k","kind":"calc"}],"script":[{"do":"tell","to":"k","message":[{"add":0}]}]}"#,
        "field script.0.message.0",
    ),
    (
        r#"{"actors":[{"name":"k","kind":"calc"}],"script":[{"do":"request","to":"k","message":[{"add":null},{"signed":2.0},{"signed":3}]}]}"#,
        "field script.0.message.1",
    ),
    (
        r#"{"actors":[{"name":"k","kind":"calc"}],"script":[{"do":"request","to":"k","message":[{"add":null},{"signed":-0},{"signed":3}]}]}"#,
        "field script.0.message.1",
    ),
    (
        r#"{"actors":[{"name":"k","kind":"calc"}],"script":[{"do":"request","to":"k","message":[{"add":null},{"signed":2},{"signed":9223372036854775808}]}]}"#,
        "field script.0.message.2",
    ),
    (
        r#"{"actors":[{"name":"k","kind":"calc"}],"script":[{"do":"request","to":"k","message":[{"unsigned":18446744073709551616}]}]}"#,
        "field script.0.message.0",
    ),
    (
        r#"{"actors":[{"name":"k","kind":"calc"}],"script":[{"do":"request","to":"k","message":[{"unsigned":18446744073709551615}]}]}"#,
        "interface of k for conductor",
    ),
    (
        r#"{"actors":[{"name":"k","kind":"calc"}],"script":[{"do":"request","to":"k","message":[{"signed":2},{"signed":3}]}]}"#,
        "interface of k for conductor",
    ),
    (
        r#"{"actors":[{"name":"k","kind":"calc"}],"script":[{"do":"tell","to":"k","message":[{"text":"a"}]},{"do":"tell","to":"l","message":[{"text":"a"}]}]}"#,
        "interface of k for conductor",
    ),
    (
        r#"{"actors":[{"name":"k","kind":"calc"}],"script":[{"do":"sync"},{"do":"tell","to":"l","message":[{"text":"a"}]},{"do":"tell","to":"k","message":[{"text":"a"}]}]}"#,
        "unknown l",
    ),
    (
        r#"{"actors":[{"name":"k","kind":"calc"}],"script":[{"do":"tell","to":"k","message":[{"add":null},{"signed":2,"signed":3},{"signed":4}]}]}"#,
        "valid",
    ),
    (
        r#"{"actors":[{"name":"k","kind":"echo","asleep":false,"peers":[]}],"script":[{"do":"exit","to":"k","reason":"user_shutdown"},{"do":"tick"}]}"#,
        "valid",
    ),
];

/// Documents with faults of two passes: the earlier pass wins.
const TWO_FAULTS: [(&str, &str); 14] = [
    (r#"{"actors":[{}],"script":[]"#, "not JSON"),
    (
        r#"{"actors":[{"name":"a","kind":"x"}],"script":[1]}"#,
        "field script.0",
    ),
    (
        r#"{"actors":[{"name":"conductor","kind":"echo"}],"script":[],"z":1}"#,
        "field z",
    ),
    (
        r#"{"actors":[{"name":"c","kind":"counter","peers":["k"]}],"script":[{"do":"go"}]}"#,
        "field script.0.do",
    ),
    (
        r#"{"actors":[],"script":[{"do":"exit","to":"a","reason":"kill"},{"do":"sync","x":1}]}"#,
        "field script.1.x",
    ),
    (
        r#"{"actors":[{"name":"k","kind":"calc"}],"script":[{"do":"tell","to":"k","message":[1]},{"do":"tick","within":1}]}"#,
        "field script.1.within",
    ),
    (
        r#"{"actors":[{"name":"s","kind":"spawner","children":254},{"name":"c","kind":"counter","peers":["k"]}],"script":[]}"#,
        "too many",
    ),
    (
        r#"{"actors":[{"name":"s","kind":"spawner","children":254},{"name":"b","kind":"echo"}],"script":[{"do":"exit","to":"c","reason":"kill"}]}"#,
        "too many",
    ),
    (
        r#"{"actors":[{"name":"c","kind":"counter","peers":["k"]},{"name":"b","kind":"x"}],"script":[]}"#,
        "kind x",
    ),
    (
        r#"{"actors":[{"name":"c","kind":"counter","peers":["k"]},{"name":"c","kind":"echo"}],"script":[]}"#,
        "name c twice",
    ),
    (
        r#"{"actors":[{"name":"c","kind":"counter","peers":["e"]},{"name":"e","kind":"echo"},{"name":"l","kind":"lines"}],"script":[]}"#,
        "field actors.2.peers",
    ),
    (
        r#"{"actors":[{"name":"l","kind":"lines"}],"script":[{"do":"tell","to":"l","message":[1]}]}"#,
        "field actors.0.peers",
    ),
    (
        r#"{"actors":[{"name":"c","kind":"counter","peers":["k"]}],"script":[{"do":"exit","to":"d","reason":"kill"}]}"#,
        "unknown k",
    ),
    (
        r#"{"actors":[{"name":"c","kind":"counter","peers":["e"]},{"name":"e","kind":"echo"}],"script":[{"do":"tell","to":"e","message":[1]}]}"#,
        "interface of e for c",
    ),
];

/// Documents at the edges of their members' forms.
const EDGES: [(&str, &str); 14] = [
    (r#"{"actors":1,"actors":[],"script":[]}"#, "valid"),
    (
        r#"{"actors":[{"name":"a","name":"b","kind":"echo"}],"script":[{"do":"exit","to":"a","reason":"kill"}]}"#,
        "unknown a",
    ),
    (
        r#"{"actors":[{"name":"é","kind":"echo"}],"script":[]}"#,
        "field actors.0.name",
    ),
    (
        r#"{"actors":[{"name":"a","kind":"echo","":1}],"script":[]}"#,
        "field actors.0.",
    ),
    (
        r#"{"actors":[{"name":"a","kind":"spawner","children":18446744073709551616}],"script":[]}"#,
        "field actors.0.children",
    ),
    (
        r#"{"actors":[{"name":"a","kind":"spawner","children":"1"}],"script":[]}"#,
        "field actors.0.children",
    ),
    (
        r#"{"actors":[{"name":"a","kind":"spawner","children":0}],"script":[]}"#,
        "valid",
    ),
    (
        r#"{"actors":[],"script":[{"do":"sync","x.y":1}]}"#,
        "field script.0.x.y",
    ),
    (
        r#"{"actors":[],"script":[{"do":"exit","to":"a","reason":"kill","":1}]}"#,
        "field script.0.",
    ),
    (
        r#"{"actors":[],"script":[{"do":"request","to":"a","message":[1],"within":1.0}]}"#,
        "field script.0.within",
    ),
    (
        r#"{"actors":[],"script":[{"do":"request","to":"a","message":[1],"within":-0}]}"#,
        "field script.0.within",
    ),
    (
        r#"{"actors":[],"script":[{"do":"request","to":"a","message":[1],"within":18446744073709551617}]}"#,
        "field script.0.within",
    ),
    (
        r#"{"actors":[{"name":"k","kind":"cell"}],"script":[{"do":"await","to":"k","message":[{"get":null}],"within":1000}]}"#,
        "valid",
    ),
    (
        r#"{"actors":[{"name":"k","kind":"cell"}],"script":[{"do":"request","to":"k","message":[{"get":null}],"within":1}]}"#,
        "valid",
    ),
];

/// Documents whose actors have a peer too many or too few for their kind, or just as many as they may have.
const PEER_COUNTS: [(&str, &str); 12] = [
    (
        r#"{"actors":[{"name":"a","kind":"collector","peers":["a"]}],"script":[]}"#,
        "field actors.0.peers",
    ),
    (
        r#"{"actors":[{"name":"a","kind":"calc","peers":["a"]}],"script":[]}"#,
        "field actors.0.peers",
    ),
    (
        r#"{"actors":[{"name":"a","kind":"cell","peers":["a"]}],"script":[]}"#,
        "field actors.0.peers",
    ),
    (
        r#"{"actors":[{"name":"a","kind":"echo","peers":["a"]}],"script":[]}"#,
        "field actors.0.peers",
    ),
    (
        r#"{"actors":[{"name":"a","kind":"holder","peers":["a"]}],"script":[]}"#,
        "field actors.0.peers",
    ),
    (
        r#"{"actors":[{"name":"a","kind":"quitter","peers":["a"]}],"script":[]}"#,
        "field actors.0.peers",
    ),
    (
        r#"{"actors":[{"name":"a","kind":"spawner","peers":["a"]}],"script":[]}"#,
        "field actors.0.peers",
    ),
    (
        r#"{"actors":[{"name":"a","kind":"alarm","peers":["a"]}],"script":[]}"#,
        "field actors.0.peers",
    ),
    (
        r#"{"actors":[{"name":"r","kind":"relay"}],"script":[]}"#,
        "field actors.0.peers",
    ),
    (
        r#"{"actors":[{"name":"l","kind":"lines","peers":[]}],"script":[]}"#,
        "field actors.0.peers",
    ),
    (
        r#"{"actors":[{"name":"l","kind":"lines","peers":["k","k"]},{"name":"k","kind":"collector"}],"script":[]}"#,
        "field actors.0.peers",
    ),
    (
        r#"{"actors":[{"name":"w","kind":"watcher"}],"script":[]}"#,
        "valid",
    ),
];

/// What is answered to the bytes, in words.
fn answer(alloc: Global, table: &TypeTable, bytes: &[u8]) -> Result<String, Fail>
    requires { seen table.now ≡ core }
{
    match read_scenario(alloc, table, bytes) {
        Ok(_) => Ok(String::from_str(alloc, "valid")?),
        Err(fault) => Ok(fault.to_string(alloc)?),
    }
}

#[test]
fn the_first_fault_is_answered(rt: HostRuntime) -> Result<(), Fail> {
    let alloc = rt.alloc();
    let table = core_table(alloc)?;
    for (text, wanted) in OUT_OF_FORM {
        assert_eq!(rt; answer(alloc, &table, text.as_bytes())?.as_str(), wanted);
    }
    for (text, wanted) in KINDS_AND_NAMES {
        assert_eq!(rt; answer(alloc, &table, text.as_bytes())?.as_str(), wanted);
    }
    for (text, wanted) in MESSAGES {
        assert_eq!(rt; answer(alloc, &table, text.as_bytes())?.as_str(), wanted);
    }
    assert_eq!(rt;
        answer(alloc, &table, b"{\"actors\":[],\"script\":[],\"\xff\":1}")?.as_str(),
        "not JSON"
    );
    Ok(())
}

#[test]
fn peers_are_there_and_take_what_is_asked(rt: HostRuntime) -> Result<(), Fail> {
    let alloc = rt.alloc();
    let table = core_table(alloc)?;
    for (text, wanted) in PEERS {
        assert_eq!(rt; answer(alloc, &table, text.as_bytes())?.as_str(), wanted);
    }
    Ok(())
}

#[test]
fn the_earlier_pass_wins(rt: HostRuntime) -> Result<(), Fail> {
    let alloc = rt.alloc();
    let table = core_table(alloc)?;
    for (text, wanted) in TWO_FAULTS {
        assert_eq!(rt; answer(alloc, &table, text.as_bytes())?.as_str(), wanted);
    }
    Ok(())
}

#[test]
fn members_and_peers_are_within_their_edges(rt: HostRuntime) -> Result<(), Fail> {
    let alloc = rt.alloc();
    let table = core_table(alloc)?;
    for (text, wanted) in EDGES {
        assert_eq!(rt; answer(alloc, &table, text.as_bytes())?.as_str(), wanted);
    }
    for (text, wanted) in PEER_COUNTS {
        assert_eq!(rt; answer(alloc, &table, text.as_bytes())?.as_str(), wanted);
    }
    Ok(())
}

#[test]
fn no_front_of_a_document_is_one(rt: HostRuntime) -> Result<(), Fail> {
    let alloc = rt.alloc();
    let table = core_table(alloc)?;
    let text = br#"{"actors":[{"name":"k","kind":"calc"}],"script":[{"do":"sync"}]}"#;
    for n in 0..text.len() {
        assert_eq!(rt; answer(alloc, &table, &text[..n])?.as_str(), "not JSON");
    }
    assert_eq!(rt; answer(alloc, &table, text)?.as_str(), "valid");
    Ok(())
}

/// So many times the piece, and the others before and behind.
fn repeated(
    alloc: Global,
    front: &str,
    piece: &str,
    count: u32,
    back: &str,
) -> Result<String, Fail> {
    let mut text = String::from_str(alloc, front)?;
    for _ in 0..count {
        text.push_str(piece)?;
    }
    text.push_str(back)?;
    Ok(text)
}

#[test]
fn limits_are_where_they_are_said_to_be(rt: HostRuntime) -> Result<(), Fail> {
    let alloc = rt.alloc();
    let table = core_table(alloc)?;
    let rows = [
        (
            r#"{"actors":["#,
            "1,",
            255,
            r#"1],"script":[]}"#,
            "field actors.0",
        ),
        (
            r#"{"actors":[],"script":["#,
            r#"{"do":"sync"},"#,
            999,
            r#"{"do":"sync"}]}"#,
            "valid",
        ),
        (
            r#"{"actors":[],"script":["#,
            r#"{"do":"sync"},"#,
            1000,
            r#"{"do":"sync"}]}"#,
            "too many",
        ),
        (
            r#"{"actors":["#,
            r#"{"name":"a","kind":"x"},"#,
            254,
            r#"{"name":"a","kind":"x"}],"script":[]}"#,
            "kind x",
        ),
        (
            r#"{"actors":["#,
            r#"{"name":"a","kind":"x"},"#,
            255,
            r#"{"name":"a","kind":"x"}],"script":[]}"#,
            "too many",
        ),
        (
            r#"{"actors":[{"name":"b","kind":"x"}"#,
            r#",{"name":"a","kind":"spawner","children":126}"#,
            2,
            r#"],"script":[]}"#,
            "kind x",
        ),
        (
            r#"{"actors":[{"name":"b","kind":"x"}"#,
            r#",{"name":"a","kind":"spawner","children":127}"#,
            2,
            r#"],"script":[]}"#,
            "too many",
        ),
        (
            r#"{"actors":[{"name":"b","kind":"x"}"#,
            r#",{"name":"a","kind":"spawner","children":253}"#,
            1,
            r#"],"script":[]}"#,
            "kind x",
        ),
        (
            r#"{"actors":[{"name":"b","kind":"x"}"#,
            r#",{"name":"a","kind":"spawner","children":254}"#,
            1,
            r#"],"script":[]}"#,
            "too many",
        ),
        (
            r#"{"actors":["#,
            r#"{"name":"a","kind":"source"},"#,
            1,
            r#"{"name":"a","kind":"source"}],"script":[]}"#,
            "too many",
        ),
        (
            r#"{"actors":[{"name":""#,
            "a",
            64,
            r#"","kind":"echo"}],"script":[]}"#,
            "valid",
        ),
        (
            r#"{"actors":[{"name":""#,
            "a",
            65,
            r#"","kind":"echo"}],"script":[]}"#,
            "field actors.0.name",
        ),
    ];
    for (front, piece, count, back, wanted) in rows {
        let text = repeated(alloc, front, piece, count, back)?;
        assert_eq!(rt;
            answer(alloc, &table, text.as_str().as_bytes())?.as_str(),
            wanted
        );
    }
    for (depth, wanted) in [(127, "field "), (128, "not JSON")] {
        let open = repeated(alloc, "", "[", depth, "")?;
        let text = repeated(alloc, open.as_str(), "]", depth, "")?;
        assert_eq!(rt;
            answer(alloc, &table, text.as_str().as_bytes())?.as_str(),
            wanted
        );
    }
    Ok(())
}

#[test]
fn numbers_of_peers_and_long_names_are_where_they_are_said_to_be(
    rt: HostRuntime,
) -> Result<(), Fail> {
    let alloc = rt.alloc();
    let table = core_table(alloc)?;
    let rows = [
        (
            r#"{"actors":[{"name":"k","kind":"collector"},{"name":"l","kind":"lines","peers":["k"]},{"name":"s","kind":"source","peers":["#,
            r#""l","#,
            16,
            r#""k"]}],"script":[]}"#,
            "valid",
        ),
        (
            r#"{"actors":[{"name":"k","kind":"collector"},{"name":"l","kind":"lines","peers":["k"]},{"name":"s","kind":"source","peers":["#,
            r#""l","#,
            17,
            r#""k"]}],"script":[]}"#,
            "field actors.2.peers",
        ),
        (
            r#"{"actors":[{"name":"r","kind":"relay","peers":["#,
            r#""r","#,
            254,
            r#""r"]}],"script":[]}"#,
            "valid",
        ),
        (
            r#"{"actors":[{"name":"r","kind":"relay","peers":["#,
            r#""r","#,
            255,
            r#""r"]}],"script":[]}"#,
            "field actors.0.peers",
        ),
        (
            r#"{"actors":[{"name":"w","kind":"watcher","peers":["#,
            r#""w","#,
            254,
            r#""w"]}],"script":[]}"#,
            "valid",
        ),
        (
            r#"{"actors":[{"name":"w","kind":"watcher","peers":["#,
            r#""w","#,
            255,
            r#""w"]}],"script":[]}"#,
            "field actors.0.peers",
        ),
        (
            r#"{"actors":[],"script":[{"do":"exit","to":""#,
            "b",
            64,
            r#"","reason":"kill"}]}"#,
            "unknown bbbbbbbbbbbbbbbbbbbbbbbbbbbbbbbbbbbbbbbbbbbbbbbbbbbbbbbbbbbbbbbb",
        ),
        (
            r#"{"actors":[],"script":[{"do":"exit","to":""#,
            "b",
            65,
            r#"","reason":"kill"}]}"#,
            "field script.0.to",
        ),
        (
            r#"{"actors":[{"name":"a","kind":"relay","peers":[""#,
            "b",
            65,
            r#""]}],"script":[]}"#,
            "field actors.0.peers.0",
        ),
        (
            r#"{"actors":[],"script":["#,
            r#"{"do":"exit","to":"a","reason":"kill"},"#,
            1000,
            r#"{"do":"tick"}]}"#,
            "too many",
        ),
    ];
    for (front, piece, count, back, wanted) in rows {
        let text = repeated(alloc, front, piece, count, back)?;
        assert_eq!(rt;
            answer(alloc, &table, text.as_str().as_bytes())?.as_str(),
            wanted
        );
    }
    Ok(())
}

#[test]
fn a_message_has_at_most_4194304_words(rt: HostRuntime) -> Result<(), Fail> {
    let alloc = rt.alloc();
    // the number of elements, the type, the length, and 4,194,301 words of eight bytes
    for (bytes, wanted) in [(33_554_408, false), (33_554_409, true)] {
        let mut types = TypeIds::new(alloc);
        types.push(TypeId(5))?;
        let mut values = Seq::new(alloc);
        values.push(Value::Bytes(Seq::of_vec(vec![in alloc; 0u8; bytes]?)))?;
        assert_eq!(rt; is_large(alloc, &Contents { types, values })?, wanted);
    }
    Ok(())
}

#[test]
fn what_a_document_says_is_read(rt: HostRuntime) -> Result<(), Fail> {
    let alloc = rt.alloc();
    let table = core_table(alloc)?;
    let text =
        br#"{"actors":[{"name":"k","kind":"calc"},{"name":"e","kind":"echo","asleep":true}],"script":[
        {"do":"tell","to":"e","message":[{"text":"a"}],"priority":"urgent"},{"do":"exit","to":"k","reason":"kill"}]}"#;
    let scenario = read_scenario(alloc, &table, text)?;
    assert_eq!(rt; scenario.names.get(1).map(|name| name.as_str()), Some("e"));
    assert_eq!(rt; scenario.setups.len(), 2);
    assert!(rt;
        scenario
            .setups
            .get(1)
            .is_some_and(|setup| setup.asleep && setup.kind == KindName::Echo)
    );
    assert!(rt;
        matches!(
            scenario.script.get(0),
            Some(Step::Tell(2, Priority::Urgent, _, _))
        )
    );
    assert!(rt; matches!(scenario.script.get(1), Some(Step::Exit(1, _))));
    Ok(())
}

/// The document of the built-in scenario with two counters.
const BUILT_IN: &str = r#"{"actors":[
 {"name":"src","kind":"source","peers":["lines","relay","col"]},
 {"name":"lines","kind":"lines","peers":["col"]},
 {"name":"relay","kind":"relay","peers":["c1","c2"]},
 {"name":"c1","kind":"counter","peers":["col"]},
 {"name":"c2","kind":"counter","peers":["col"]},
 {"name":"col","kind":"collector"}],
 "script":[
 {"do":"tell","to":"src","message":[{"start":null}]},
 {"do":"request","to":"col","message":[{"index":null}]}]}"#;

#[test]
fn the_built_in_scenario_is_what_its_document_says(rt: HostRuntime) -> Result<(), Fail> {
    let alloc = rt.alloc();
    let table = core_table(alloc)?;
    let read = read_scenario(alloc, &table, BUILT_IN.as_bytes())?;
    let built = builtin(alloc, 2)?;
    assert_eq!(rt;
        format!(in alloc; "{built:?}")?,
        format!(in alloc; "{read:?}")?
    );
    Ok(())
}
