ghost use Rattle.std.specs.Prelude.{◌≡◌};
ghost use Rattle.caf_command.specs.Words as words;
ghost use Rattle.caf_command.specs.Options as options;

/// An option of `run` that has a value.
#[derive(Clone, Copy, Debug, PartialEq, Eq)]
pub(crate) enum Valued {
    /// `--scenario`: the file of a scenario.
    Scenario,
    /// `--workers`: how many workers there are.
    Workers,
    /// `--max-messages`: how many messages may be handled.
    Budget,
}

/// Whether a word can name a file or be a value: it isn't empty and doesn't begin with `-`.
pub(crate) fn is_plain(word: &str) -> bool
    ensures { result ≡ words.is_plain word.now }
{
    match word.as_bytes() {
        [] => false,
        [first, ..] => *first != b'-',
    }
}

/// The option of this name that has a value.
pub(crate) fn valued_named(name: &str) -> Option<Valued>
    ensures { result ≡ options.valued_named name.now }
{
    if name == "--scenario" {
        Some(Valued::Scenario)
    } else if name == "--workers" {
        Some(Valued::Workers)
    } else if name == "--max-messages" {
        Some(Valued::Budget)
    } else {
        None
    }
}
