//! How much has come to a collector.
ghost use Rattle.std.specs.Prelude.{◌≡◌};
ghost use Rattle.caf_kinds.specs.Collector as collector;

use crate::{Extent, Finish, Question};

/// How much has come to a collector. Its numbers stop at 2^64 - 1.
#[derive(Clone, Copy, Debug, PartialEq, Eq, Drop)]
pub struct Tally {
    /// How many [postings].
    pub postings: u64,
    /// How many [extent]s.
    pub extents: u64,
    /// The lines of these together.
    pub lines: u64,
    /// The bytes of these together.
    pub bytes: u64,
    /// The chunks of all [finish]es together, once one has come.
    pub chunks: Option<u64>,
}

impl Tally {
    /// Whether the question can be answered.
    pub(crate) fn answers(&self, question: Question) -> bool
        ensures { result ≡ collector.is_answerable self.now question }
    {
        match question {
            Question::Index => is_reached(self.chunks, self.postings),
            Question::Totals => is_reached(self.chunks, self.extents),
        }
    }

    /// With one [postings] more.
    pub(crate) fn with_postings(self) -> Tally
        ensures { result ≡ collector.one_postings_more self }
    {
        Tally {
            postings: self.postings.saturating_add(1),
            ..self
        }
    }

    /// With the extent.
    pub(crate) fn with_extent(self, extent: &Extent) -> Tally
        ensures { result ≡ collector.with_extent self extent.now }
    {
        Tally {
            extents: self.extents.saturating_add(1),
            lines: self.lines.saturating_add(extent.lines),
            bytes: self.bytes.saturating_add(extent.bytes),
            ..self
        }
    }

    /// With the chunks that were told.
    pub(crate) fn with_finish(self, finish: &Finish) -> Tally
        ensures { result ≡ collector.with_finish self finish.now }
    {
        Tally {
            chunks: Some(sum_with(self.chunks, finish.chunks)),
            ..self
        }
    }
}

fn is_reached(chunks: Option<u64>, count: u64) -> bool
    ensures { result ≡ collector.is_reached chunks count }
{
    match chunks {
        Some(chunks) => chunks <= count,
        None => false,
    }
}

fn sum_with(chunks: Option<u64>, more: u64) -> u64
    ensures { result ≡ collector.sum_with chunks more }
{
    match chunks {
        Some(chunks) => chunks.saturating_add(more),
        None => more,
    }
}
