/// How the text of a timer is written.
#[derive(Clone, Copy, Debug, PartialEq, Eq)]
pub enum TimeForm {
    /// An instant with its offset, as `2026-01-31T12:00:00Z`.
    Date,
    /// A time span from the timer's start on, as `P1DT12H`.
    Duration,
}
