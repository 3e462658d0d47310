//! What holds of every script.
ghost use Rattle.caf_script.specs.Script.{PlaysInOrder, GoesAsFarAsItCan};

/// The steps that a script plays are the next ones, and it sends what they send, in order: what is left
/// of its plan is what stands behind them.
pub fn plays_in_order()
    ensures { PlaysInOrder }
{}

/// A script that goes on stops where it is over, where its plan is played, or where the next step waits for
/// what has not come.
pub fn goes_as_far_as_it_can()
    ensures { GoesAsFarAsItCan }
{}
