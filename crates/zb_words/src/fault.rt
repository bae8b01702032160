use thiserror::Error;

/// Why words were not read as a plan.
#[derive(Clone, Copy, Debug, PartialEq, Eq, Error)]
pub enum PlanFault {
    /// They are outside the grammar.
    #[error("the words are outside the grammar")]
    Usage,
    #[error("there was no memory")]
    Memory,
}
