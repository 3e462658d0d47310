use caf_types::{Letters, Seq};

/// The values of each option, and the files, in the order in which they were given.
#[derive(Debug, Drop)]
pub(crate) struct Given {
    pub(crate) scenarios: Seq<Letters>,
    pub(crate) workers: Seq<Letters>,
    pub(crate) budgets: Seq<Letters>,
    pub(crate) traces: usize,
    pub(crate) files: Seq<Letters>,
}
