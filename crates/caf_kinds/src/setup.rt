use caf_types::Places;

/// The kinds of actors.
#[derive(Clone, Copy, Debug, PartialEq, Eq, Drop)]
pub enum KindName {
    /// Answers a text with itself; while it sleeps it keeps texts for later.
    Echo,
    /// Keeps a number.
    Cell,
    /// Answers sums, differences and products.
    Calc,
    /// Holds texts until it is told to settle.
    Holder,
    /// Quits for the reason that it is told.
    Quitter,
    /// Tells the chunks of its files.
    Source,
    /// Hands chunks on in lower case, each to one of its peers.
    Relay,
    /// Tells the postings of chunks.
    Counter,
    /// Tells how many lines and bytes chunks have.
    Lines,
    /// Puts postings into an index, and adds up lines and bytes.
    Collector,
    /// Watches and links its peers, and tells which places have quit.
    Watcher,
    /// Starts its children, and lets them add in turn.
    Spawner,
    /// Answers after as many ticks as it is asked for.
    Alarm,
    /// Plays the script. It is the actor at place 0.
    Conductor,
}

/// How an actor is set up.
#[derive(Debug, Drop)]
pub struct Setup {
    /// What kind of actor it is.
    pub kind: KindName,
    /// Whom it sends to.
    pub peers: Places,
    /// Whether it is asleep at first. An echo alone may be.
    pub asleep: bool,
    /// The places of its children.
    pub reserve: Places,
}
