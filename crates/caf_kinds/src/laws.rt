//! What holds of every run that a conductor begins.
ghost use Rattle.caf_kinds.specs.Closing.{ConductorCloses};

/// A conductor at place 0 takes nothing, sends nothing to itself, and never quits. At Stop it sends each other
/// place an exit with `kill`, in order of place, and after it nothing more.
pub fn conductor_closes()
    ensures { ConductorCloses }
{}
