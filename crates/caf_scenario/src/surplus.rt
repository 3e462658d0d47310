//! Members that are too many.
ghost use Rattle.std.specs.Prelude.{◌≡◌};
ghost use Rattle.std.specs.Option.{option_map};
ghost use Rattle.serde_json.specs.View.{view, members_view};
ghost use Rattle.caf_scenario.specs.Surplus.{is_actor_member, is_sent_member, is_member_of, first_surplus, surplus_in};

use serde_json::{Map, Value as Json};

/// What has members.
#[derive(Clone, Copy, Debug, PartialEq, Eq, Drop)]
pub(crate) enum Bearer {
    /// The whole document.
    Document,
    /// An actor that is neither an echo nor a spawner.
    Actor,
    /// An echo.
    Echo,
    /// A spawner.
    Spawner,
    /// A step that tells.
    Tell,
    /// A step that requests or awaits.
    Request,
    /// A step that sends an exit notice.
    Exit,
    /// A step with no further member.
    Bare,
}

impl Bearer {
    /// Whether it may have a member of that name.
    fn may_have(self, name: &str) -> bool
        ensures { result ≡ is_member_of self name.now }
    {
        match self {
            Bearer::Document => name == "actors" || name == "script",
            Bearer::Actor => is_actor_member(name),
            Bearer::Echo => is_actor_member(name) || name == "asleep",
            Bearer::Spawner => is_actor_member(name) || name == "children",
            Bearer::Tell => is_sent_member(name),
            Bearer::Request => is_sent_member(name) || name == "within",
            Bearer::Exit => name == "do" || name == "to" || name == "reason",
            Bearer::Bare => name == "do",
        }
    }
}

/// The name of the first member, in byte order, that is too many.
pub(crate) fn surplus_in(bearer: Bearer, json: &Json) -> Option<&str>
    ensures { option_map (λ name. name.now) result ≡ surplus_in bearer (view json.now) }
{
    match json.as_object() {
        None => None,
        Some(members) => first_surplus(bearer, members),
    }
}

fn first_surplus(bearer: Bearer, members: &Map<String, Json>) -> Option<&str>
    ensures { option_map (λ name. name.now) result ≡ first_surplus bearer (members_view members.now.entries) }
{
    for (name, _) in members.iter() {
        if !bearer.may_have(name.as_str()) {
            return Some(name.as_str());
        }
    }
    None
}

fn is_actor_member(name: &str) -> bool
    ensures { result ≡ is_actor_member name.now }
{
    name == "name" || name == "kind" || name == "peers"
}

fn is_sent_member(name: &str) -> bool
    ensures { result ≡ is_sent_member name.now }
{
    name == "do" || name == "to" || name == "message" || name == "priority"
}
