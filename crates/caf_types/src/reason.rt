ghost use Rattle.std.specs.Prelude.{◌≡◌};
ghost use Rattle.caf_types.specs.Reason.{reason_number, reason_name, reason_named};

/// Why an actor quit. `Normal`, `UserShutdown` and `Kill` are named after the CAF manual's exit reasons; the
/// numbers are this project's own.
#[derive(Clone, Copy, Debug, PartialEq, Eq, Drop)]
pub enum Reason {
    /// It was done.
    Normal = 0,
    /// A user wanted it to end.
    UserShutdown = 1,
    /// It had to end at once, as every actor does when a run stops.
    Kill = 2,
    /// It couldn't go on.
    Failed = 3,
}

impl Reason {
    /// The reason's number.
    pub fn number(self) -> u8
        ensures { result ≡ reason_number self }
    {
        self as u8
    }

    /// The reason's name, as scenarios write it.
    pub fn as_str(self) -> &'static str
        ensures { result.now ≡ reason_name self }
    {
        match self {
            Reason::Normal => "normal",
            Reason::UserShutdown => "user_shutdown",
            Reason::Kill => "kill",
            Reason::Failed => "failed",
        }
    }

    /// The reason of that name; None exactly where there is none.
    pub fn named(name: &str) -> Option<Reason>
        ensures { result ≡ reason_named name.now }
    {
        if name == "normal" {
            Some(Reason::Normal)
        } else if name == "user_shutdown" {
            Some(Reason::UserShutdown)
        } else if name == "kill" {
            Some(Reason::Kill)
        } else if name == "failed" {
            Some(Reason::Failed)
        } else {
            None
        }
    }
}
