ghost use Rattle.std.specs.Prelude.{◌≡◌};
ghost use Rattle.zb_duration.specs.Due.{due_of, due_of_date, due_of_duration, length_of_text, moment_at};

use crate::{DueFault, TimeForm};
use jiff::Timestamp;
use jiff::fmt::temporal;
use zb_base::Moment;

// How many milliseconds a day has.
const DAY: u64 = 86_400_000;

// How many nanoseconds a millisecond has.
const MILLISECOND: u128 = 1_000_000;

/// The moment at which a timer is due that starts at `now`. A date is a text that `jiff` reads as a
/// timestamp, as RFC 3339 has it. A duration begins with `P`, is read by `jiff` as a span of
/// ISO 8601, and has no years and no months. Parts of a millisecond are dropped, towards 1970. It
/// takes a step for each byte.
#[tactic(auto, unfolding(crate::specs::Due::due_of))]
pub fn due(form: TimeForm, text: &str, now: Moment) -> Result<Moment, DueFault>
    ensures { result ≡ due_of form text.now now }
{
    match form {
        TimeForm::Date => due_of_date(text),
        TimeForm::Duration => due_of_duration(text, now),
    }
}

#[tactic(auto, unfolding(crate::specs::Due::due_of_date))]
fn due_of_date(text: &str) -> Result<Moment, DueFault>
    ensures { result ≡ due_of_date text.now }
{
    match text.parse::<Timestamp>() {
        Ok(instant) => moment_at(i128::from(instant.as_millisecond())),
        Err(_) => Err(DueFault::Text),
    }
}

#[tactic(auto, unfolding(crate::specs::Due::due_of_duration))]
fn due_of_duration(text: &str, now: Moment) -> Result<Moment, DueFault>
    ensures { result ≡ due_of_duration text.now now }
{
    let length = length_of(text)?;
    moment_at(i128::from(now.ms()) + i128::from(length))
}

// How many milliseconds a duration is.
#[tactic(auto, unfolding(crate::specs::Due::length_of_text))]
fn length_of(text: &str) -> Result<u64, DueFault>
    ensures { result ≡ length_of_text text.now }
{
    if !text.as_bytes().starts_with(b"P") {
        return Err(DueFault::Text);
    }
    match temporal::parse_span(text.as_bytes()) {
        Ok(span) if span.negative || span.years > 0 || span.months > 0 => Err(DueFault::Text),
        Ok(span) => Ok(
            u64::from(span.day_magnitude()) * DAY + (span.clock_magnitude() / MILLISECOND) as u64,
        ),
        Err(_) => Err(DueFault::Text),
    }
}

fn moment_at(ms: i128) -> Result<Moment, DueFault>
    ensures { result ≡ moment_at ms }
{
    match u64::try_from(ms) {
        Ok(ms) if ms <= Moment::LAST => Ok(Moment::new(ms)),
        _ => Err(DueFault::Range),
    }
}
