ghost use Rattle.std.specs.Prelude.{◌≡◌};
ghost use Rattle.caf_mailbox.specs.Passed.{nothing_passed};

/// How many contents at the front of each list are known not to be eligible for a test, so that they
/// are not looked at again.
#[derive(Clone, Copy, Debug, PartialEq, Eq)]
pub struct Passed {
    pub(crate) urgent: usize,
    pub(crate) normal: usize,
}

impl Passed {
    /// Of no content is anything known.
    pub fn new() -> Passed
        ensures { result ≡ nothing_passed }
    {
        Passed {
            urgent: 0,
            normal: 0,
        }
    }
}
