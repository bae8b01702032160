use std::sync::Wait;
use zb_base::Moment;

/// A clock that several threads share.
pub trait Watch {
    /// A reading.
    fn now<R: Wait>(&self, rt: &R) -> Moment;

    /// Sets the clock on by so many milliseconds, as far as it may be set, and answers its reading then.
    fn advance<R: Wait>(&self, rt: &R, ms: u64) -> Moment;
}
