//! The laws of valid scenarios. A law is the contract of a function that does nothing.
ghost use Rattle.caf_typing.specs.Opens.{BuiltinOpens, ScenariosSpareConductor, ValidScenarioOpens};

/// The actors and the script of a scenario without faults may be opened, over any files whose lines are short
/// enough: each actor is of a kind with as many peers as the kind may have, peers and children are among the
/// places, and each step goes to an actor that takes its message.
pub fn valid_scenario_opens()
    ensures { ValidScenarioOpens }
{}

/// The actors and the script of the built-in scenario may be opened, over any files whose lines are short enough.
pub fn builtin_opens()
    ensures { BuiltinOpens }
{}

/// No actor of a scenario without faults, nor of the built-in one, has the conductor as a peer or as a child: so
/// nobody tells it anything but answers, and it ends all others at Stop.
pub fn scenarios_spare_the_conductor()
    ensures { ScenariosSpareConductor }
{}
