//! The laws of well typed runs. A law is the contract of a function that does nothing.
ghost use Rattle.caf_soundness.specs.Scenarios.{BuiltinIsWellTyped, ValidScenarioIsWellTyped};
ghost use Rattle.caf_soundness.specs.Typed.{WellSetIsWellTyped};

/// Where setups and script may be opened, and each actor's peers and children take what its kind tells them, each
/// legal record is well typed, over any files. What a place took or was sent, and is no response, is an input of its
/// interface, also where it was delayed, passed on, or kept for later. No error that was sent is `unexpected_message`
/// or `unexpected_response`. What answers a request has the types that its receiver's interface declares, whoever
/// passed it on, and however late it comes. A request ends by a value of the types that it expected, or by another
/// error.
pub fn well_set_is_well_typed()
    ensures { WellSetIsWellTyped }
{}

/// So is each legal record of a scenario without faults.
pub fn valid_scenario_is_well_typed()
    ensures { ValidScenarioIsWellTyped }
{}

/// And each one of the built-in scenario.
pub fn builtin_is_well_typed()
    ensures { BuiltinIsWellTyped }
{}
