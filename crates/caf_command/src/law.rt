ghost use Rattle.std.specs.Prelude.{◌≡◌, ℕ, List};
ghost use Rattle.caf_command.specs.Command.{AsksFor};
ghost use Rattle.caf_command.specs.declared.command.Command.{Command};

/// The same words never ask for two commands.
pub fn ask_for_one_command()
    ensures { (words : List (List ℕ)) (first second : Command) → AsksFor words first → AsksFor words second → first ≡ second }
{}
