ghost use Rattle.std.specs.Prelude.{◌≡◌};
ghost use Rattle.caf_types.specs.Sec.{sec_number, sec_name};

/// The errors that a request may be answered with.
///
/// All but `Failed` and `NoPlace` are named after the CAF manual's default error codes; the numbers are this
/// project's own.
#[derive(Clone, Copy, Debug, PartialEq, Eq, Drop)]
pub enum Sec {
    /// The receiver has no input of the request's types.
    UnexpectedMessage = 1,
    /// The response hasn't the types that the request declared.
    UnexpectedResponse = 2,
    /// The receiver had quit.
    RequestReceiverDown = 3,
    /// The request's time was over before a response came.
    RequestTimeout = 4,
    /// The receiver quit while it held the request.
    BrokenPromise = 5,
    /// The receiver couldn't compute an answer.
    Failed = 6,
    /// All places for new actors are taken.
    NoPlace = 7,
}

impl Sec {
    /// The error's number.
    pub fn number(self) -> u8
        ensures { result ≡ sec_number self }
    {
        self as u8
    }

    /// The error's name, as it is printed.
    pub fn as_str(self) -> &'static str
        ensures { result.now ≡ sec_name self }
    {
        match self {
            Sec::UnexpectedMessage => "unexpected_message",
            Sec::UnexpectedResponse => "unexpected_response",
            Sec::RequestReceiverDown => "request_receiver_down",
            Sec::RequestTimeout => "request_timeout",
            Sec::BrokenPromise => "broken_promise",
            Sec::Failed => "failed",
            Sec::NoPlace => "no_place",
        }
    }
}
