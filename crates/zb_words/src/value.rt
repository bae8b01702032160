ghost use Rattle.std.specs.Prelude.{◌≡◌, ◌≤◌, ◌<◌, ◌^◌, ℕ, List, Some, codes, IfSome, IfNone, IfOk, IfErr};
ghost use Rattle.clap.specs.Words.{first_value, found_of};
ghost use Rattle.zb_words.specs.Part.{IsMeant};
ghost use Rattle.zb_words.specs.Plan.{IsClockName, IsDecimal, IsPath};

use crate::plan::ClockKind;
use clap::ArgMatches;

/// An option whose value is a number, of which it says the least, the greatest, and the one that is meant where
/// the option isn't given; where there is no such one the option has to be given.
#[derive(Clone, Copy)]
pub struct NumberOption {
    pub name: &'static str,
    pub least: u64,
    pub greatest: u64,
    pub default: Option<u64>,
    /// What an error says of another value.
    pub wanted: &'static str,
}

// The most digits that a number may be written in.
const MOST_DIGITS: usize = 20;

/// The number that is asked for by this option.
pub fn number_in(asked: &ArgMatches<'_>, option: NumberOption) -> Result<u64, &'static str>
    ensures some { IfOk result (IsMeant (IsDecimal option.least option.greatest) (first_value (found_of asked.now) option.name.now) option.default) }
    ensures none { IfErr result (λ _. (n : ℕ) → IsMeant (IsDecimal option.least option.greatest) (first_value (found_of asked.now) option.name.now) option.default n → ⊥) }
    ensures within { IfSome option.default (λ n. (option.least ≤ n) × (n ≤ option.greatest)) → IfOk result (λ n. (option.least ≤ n) × (n ≤ option.greatest)) }
{
    let number = match asked.get_str(option.name) {
        None => option.default,
        Some(digits) => number_of(digits, option.least, option.greatest),
    };
    number.ok_or(option.wanted)
}

/// The number that is asked for by this option, which fits into 32 bits.
pub fn small_number_in(asked: &ArgMatches<'_>, option: NumberOption) -> Result<u32, &'static str>
    requires small { option.greatest < 2 ^ 32 }
    requires default { IfSome option.default (λ n. (option.least ≤ n) × (n ≤ option.greatest)) }
    ensures some { IfOk result (IsMeant (IsDecimal option.least option.greatest) (first_value (found_of asked.now) option.name.now) option.default) }
    ensures none { IfErr result (λ _. (n : ℕ) → IsMeant (IsDecimal option.least option.greatest) (first_value (found_of asked.now) option.name.now) option.default n → ⊥) }
    ensures within { IfOk result (λ n. (option.least ≤ n) × (n ≤ option.greatest)) }
{
    match number_in(asked, option) {
        Ok(number) => Ok(number as u32),
        Err(wanted) => Err(wanted),
    }
}

// The number that these digits write, from the least to the greatest.
fn number_of(digits: &str, least: u64, greatest: u64) -> Option<u64>
    ensures some { IfSome result (IsDecimal least greatest digits.now) }
    ensures none { IfNone result ((n : ℕ) → IsDecimal least greatest digits.now n → ⊥) }
{
    if digits.len() > MOST_DIGITS || digits.starts_with('+') {
        return None;
    }
    let number = digits.parse::<u64>().ok()?;
    if (least..=greatest).contains(&number) {
        Some(number)
    } else {
        None
    }
}

/// The directory that is asked for.
pub fn dir_in<'a>(asked: &ArgMatches<'a>) -> &'a str
    ensures { IsMeant IsPath (first_value (found_of asked.now) (codes "dir")) (Some (codes "zb")) result.now }
{
    asked.get_str("dir").unwrap_or("zb")
}

/// The clock that is asked for.
pub fn clock_in(asked: &ArgMatches<'_>) -> Result<ClockKind, &'static str>
    ensures some { IfOk result (IsMeant IsClockName (first_value (found_of asked.now) (codes "clock")) (Some ClockKind.Real)) }
    ensures none { IfErr result (λ _. (kind : ClockKind) → IsMeant IsClockName (first_value (found_of asked.now) (codes "clock")) (Some ClockKind.Real) kind → ⊥) }
{
    match asked.get_str("clock") {
        None | Some("real") => Ok(ClockKind::Real),
        Some("manual") => Ok(ClockKind::Manual),
        Some(_) => Err("--clock wants real or manual"),
    }
}
