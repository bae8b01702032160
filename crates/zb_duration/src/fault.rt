use thiserror::Error;

/// Why a text tells no moment at which a timer may be due.
#[derive(Clone, Copy, Debug, PartialEq, Eq, Error)]
pub enum DueFault {
    /// It isn't of the form.
    #[error("the text is not of the form of a date or a duration")]
    Text,
    /// Its moment comes before 1970, or behind the last moment.
    #[error("the moment comes before 1970, or behind the last moment")]
    Range,
}
