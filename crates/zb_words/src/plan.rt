ghost use Rattle.std.specs.Prelude as prelude;
ghost use Rattle.std.specs.Prelude.{◌≡◌, ◌≢◌, ◌≤◌, ◌^◌, ◌%◌, ℕ, [], length, map, string_bytes, unwrap_or, IfOk, IfErr};
ghost use Rattle.clap.specs.Words.{all_of, found_of, kind_of, rows_of};
ghost use Rattle.clap.specs.declared.error.kind.ErrorKind.TheVariants.{OutOfMemory};
ghost use Rattle.zb_words.specs.App.{IsMatched, IsPlanOf, TakesVerb, files_among, word_of};
ghost use Rattle.zb_words.specs.Plan.{IsPlan, IsServePlan, IsLogPlan, IsGenPlan, IsInRange};
ghost use Rattle.zb_words.specs.Part.{before_dashes, behind_dashes};
ghost use Rattle.zb_words.specs.declared.fault.PlanFault.TheVariants as faults;
ghost use Rattle.zb_words.specs.declared.refusal.Refusal.TheVariants as refusals;

use crate::app::{app, command_of};
use crate::fault::PlanFault;
use crate::files::check_dashes;
use crate::refusal::Refusal;
use crate::value::{NumberOption, clock_in, dir_in, number_in, small_number_in};
use crate::verb::Verb;
use clap::error::ErrorKind;
use clap::{ArgMatches, Error};
use std::alloc::{AllocError, Global};
use zb_base::{List, Text};

/// The clock that a server goes by.
#[derive(Clone, Copy, Debug, PartialEq, Eq)]
pub enum ClockKind {
    /// The clock that the server is handed.
    Real,
    /// A clock that stands at 0 at first, and that requests alone move on.
    Manual,
}

/// What the words of a server's command line ask for.
#[derive(Debug, Drop)]
pub struct ServePlan {
    /// How many partitions there are, 1 to 16.
    pub partitions: u32,
    /// The directory of their files.
    pub dir: Text,
    /// The clock that the server goes by.
    pub clock: ClockKind,
    /// The most bytes that a log may have, 64 to 4,294,967,296.
    pub limit: u64,
    /// The most units of work that are done behind a request, and behind the last one.
    pub units: u64,
    /// The paths of the sessions, for each the one that is read and then the one that is written; where there is
    /// none, one session is over standard input and output.
    pub files: List<Text>,
}

/// Which log the words ask to be shown.
#[derive(Debug, Drop)]
pub struct LogPlan {
    /// How many partitions there are, 1 to 16.
    pub partitions: u32,
    /// The directory of their files.
    pub dir: Text,
    /// The partition whose log is shown, 1 to `partitions`.
    pub partition: u32,
}

/// Which workload the words ask to be served.
#[derive(Clone, Copy, Debug, PartialEq, Eq)]
pub struct GenPlan {
    /// What the workload is drawn from.
    pub number: u64,
    /// How many requests follow the first one, at most 100,000.
    pub requests: u32,
    /// How many partitions there are, 1 to 16.
    pub partitions: u32,
}

/// What the words of the command line ask for.
#[derive(Debug, Drop)]
pub enum Plan {
    Serve(ServePlan),
    Log(LogPlan),
    Gen(GenPlan),
}

// How many partitions there are.
const PARTITIONS: NumberOption = NumberOption {
    name: "partitions",
    least: 1,
    greatest: 16,
    default: Some(1),
    wanted: "--partitions wants a number from 1 to 16",
};

// The most bytes that a log may have.
const LIMIT: NumberOption = NumberOption {
    name: "limit",
    least: 64,
    greatest: 4_294_967_296,
    default: Some(1_073_741_824),
    wanted: "--limit wants a number from 64 to 4294967296",
};

// The most units of work that are done behind a request.
const UNITS: NumberOption = NumberOption {
    name: "units",
    least: 0,
    greatest: 1_000_000,
    default: Some(1_000),
    wanted: "--units wants a number from 0 to 1000000",
};

// What a workload is drawn from.
const NUMBER: NumberOption = NumberOption {
    name: "number",
    least: 0,
    greatest: u64::MAX,
    default: None,
    wanted: "--number wants a number from 0 to 18446744073709551615",
};

// How many requests a workload has behind the first one.
const REQUESTS: NumberOption = NumberOption {
    name: "requests",
    least: 0,
    greatest: 100_000,
    default: None,
    wanted: "--requests wants a number from 0 to 100000",
};

/// Reads the words of the command line, those after the program's name; `Usage` for words outside the grammar.
///
/// The first word is `serve`, `log` or `gen`. Options follow in any order, each at most once. An option and its
/// value, which isn't empty, are two words, of which the second doesn't begin with `-`, or one with `=` between the
/// two, as in `--clock=manual`. A number has 1 to 20 decimal digits, and zeros may lead.
///
/// Behind `serve` may come `--partitions N`, 1 to 16 and else 1; `--dir D`, else `zb`; `--clock real`, which is
/// meant where there is none, or `--clock manual`; `--limit n`, a number of bytes from 64 to 4,294,967,296, else
/// 1,073,741,824; and `--units n`, 0 to 1,000,000, else 1,000. FILEs, in pairs, stand among the options, where they
/// don't begin with `-`, or behind the word `--`. Behind `log` come `--partition P`, 1 to N, and maybe `--partitions N`
/// and `--dir D`. Behind `gen` come `--number n`, 0 to 18,446,744,073,709,551,615, `--requests r`, 0 to 100,000, and
/// maybe `--partitions N`.
pub fn plan_of(alloc: Global, words: &[String]) -> Result<Plan, PlanFault>
    ensures planned { IfOk result (IsPlan (map string_bytes words.now)) }
    ensures unplanned { IfErr result (λ fault. fault ≡ faults.Usage → (plan : Plan) → IsPlan (map string_bytes words.now) plan → ⊥) }
    ensures within { IfOk result IsInRange }
{
    match read(alloc, words) {
        Ok(plan) => Ok(plan),
        Err(error) => {
            let fault = fault_of(&error);
            drop(error);
            Err(fault)
        }
    }
}

/// What to tell a person whose words are no plan: what is wrong with them, and how they are used, or the help that
/// they ask for. Of a plan there is nothing to tell.
pub fn usage_text(alloc: Global, words: &[String]) -> Result<String, AllocError>
    ensures { IfOk result (λ text. (plan : Plan) → IsPlan (map string_bytes words.now) plan → string_bytes text ≡ []) }
{
    match read(alloc, words) {
        Ok(plan) => {
            drop(plan);
            Ok(String::new(alloc))
        }
        Err(error) => {
            let told = text_of(alloc, &error);
            drop(error);
            told
        }
    }
}

// What the error tells.
fn text_of(alloc: Global, error: &Error) -> Result<String, AllocError>
    ensures { IfOk result (λ _. kind_of error.now ≢ OutOfMemory) }
{
    match error.kind() {
        ErrorKind::OutOfMemory => Err(AllocError),
        _ => error.to_string(alloc),
    }
}

// Why the words were not read.
fn fault_of(error: &Error) -> PlanFault
    ensures { result ≡ faults.Usage → kind_of error.now ≢ OutOfMemory }
{
    match error.kind() {
        ErrorKind::OutOfMemory => PlanFault::Memory,
        _ => PlanFault::Usage,
    }
}

// Reads the words, or tells what is wrong with them.
fn read(alloc: Global, words: &[String]) -> Result<Plan, Error>
    ensures planned { IfOk result (IsPlan (map string_bytes words.now)) }
    ensures unplanned { IfErr result (λ error. kind_of error ≢ OutOfMemory → (plan : Plan) → IsPlan (map string_bytes words.now) plan → ⊥) }
    ensures within { IfOk result IsInRange }
{
    let app = app(alloc)?;
    match app.try_get_matches_from(words) {
        Ok(matches) => {
            let plan = plan_in(alloc, words, &matches);
            drop(matches);
            plan
        }
        Err(error) => Err(error),
    }
}

// Makes the plan of words that clap took.
fn plan_in(alloc: Global, words: &[String], matches: &ArgMatches<'_>) -> Result<Plan, Error>
    requires taken { TakesVerb (map string_bytes words.now) matches.now }
    ensures planned { IfOk result (IsPlan (map string_bytes words.now)) }
    ensures unplanned { IfErr result (λ error. kind_of error ≢ OutOfMemory → (plan : Plan) → IsPlan (map string_bytes words.now) plan → ⊥) }
    ensures within { IfOk result IsInRange }
{
    let Some((word, options)) = words.split_first() else {
        unreachable!()
    };
    let Some((_, asked)) = matches.subcommand() else {
        unreachable!()
    };
    let verb = verb_of(word.as_str());
    match verb_plan(alloc, verb, options, asked) {
        Ok(plan) => Ok(plan),
        Err(refusal) => Err(error_of(alloc, verb, refusal)),
    }
}

// The verb that a word is, which is one.
fn verb_of(word: &str) -> Verb
    ensures { (verb : Verb) → word.now ≡ word_of verb → result ≡ verb }
{
    match word {
        "serve" => Verb::Serve,
        "log" => Verb::Log,
        _ => Verb::Gen,
    }
}

// Makes the plan of the words behind a verb, as clap read them.
fn verb_plan(
    alloc: Global,
    verb: Verb,
    words: &[String],
    asked: &ArgMatches<'_>,
) -> Result<Plan, Refusal>
    requires taken { IsMatched verb (map string_bytes words.now) (rows_of (found_of asked.now)) }
    ensures planned { IfOk result (IsPlanOf verb (map string_bytes words.now)) }
    ensures unplanned { IfErr result (λ refusal. refusal ≢ refusals.Memory → (plan : Plan) → IsPlanOf verb (map string_bytes words.now) plan → ⊥) }
    ensures within { IfOk result IsInRange }
{
    match verb {
        Verb::Serve => match serve_plan(alloc, words, asked) {
            Ok(plan) => Ok(Plan::Serve(plan)),
            Err(refusal) => Err(refusal),
        },
        Verb::Log => match log_plan(alloc, words, asked) {
            Ok(plan) => Ok(Plan::Log(plan)),
            Err(refusal) => Err(refusal),
        },
        Verb::Gen => match gen_plan(words, asked) {
            Ok(plan) => Ok(Plan::Gen(plan)),
            Err(refusal) => Err(refusal),
        },
    }
}

// Tells that the words behind the verb are refused.
fn error_of(alloc: Global, verb: Verb, refusal: Refusal) -> Error
    ensures { refusal ≡ refusals.Memory → kind_of result ≡ OutOfMemory }
{
    let Refusal::Wants(wanted) = refusal else {
        return Error::from(AllocError);
    };
    match usage_error(alloc, verb, wanted) {
        Ok(error) => error,
        Err(no_memory) => Error::from(no_memory),
    }
}

// Tells what is wanted, and how the verb is used.
fn usage_error(alloc: Global, verb: Verb, wanted: &str) -> Result<Error, AllocError> {
    let mut command = command_of(alloc, verb)?;
    let told = command.error(ErrorKind::ValueValidation, wanted);
    drop(command);
    told
}

// Makes the plan of the words behind `serve`, as clap read them.
fn serve_plan(alloc: Global, words: &[String], asked: &ArgMatches<'_>) -> Result<ServePlan, Refusal>
    requires taken { IsMatched Verb.Serve (map string_bytes words.now) (rows_of (found_of asked.now)) }
    ensures planned { IfOk result (IsServePlan (before_dashes (map string_bytes words.now)) (behind_dashes (map string_bytes words.now))) }
    ensures unplanned { IfErr result (λ refusal. refusal ≢ refusals.Memory → (plan : ServePlan) → IsServePlan (before_dashes (map string_bytes words.now)) (behind_dashes (map string_bytes words.now)) plan → ⊥) }
    ensures within { IfOk result (λ plan. (1 ≤ plan.partitions) × (plan.partitions ≤ 16) × (64 ≤ plan.limit) × (plan.limit ≤ 2 ^ 32)) }
{
    check_dashes(Verb::Serve, words)?;
    let partitions = small_number_in(asked, PARTITIONS)?;
    let clock = clock_in(asked)?;
    let limit = number_in(asked, LIMIT)?;
    let units = number_in(asked, UNITS)?;
    let files = match files_in(alloc, asked) {
        Ok(files) => files,
        Err(refusal) => return Err(refusal),
    };
    match Text::of(alloc, dir_in(asked)) {
        Ok(dir) => Ok(ServePlan {
            partitions,
            dir,
            clock,
            limit,
            units,
            files,
        }),
        Err(no_memory) => {
            drop(files);
            Err(Refusal::from(no_memory))
        }
    }
}

// Makes the plan of the words behind `log`, as clap read them.
fn log_plan(alloc: Global, words: &[String], asked: &ArgMatches<'_>) -> Result<LogPlan, Refusal>
    requires taken { IsMatched Verb.Log (map string_bytes words.now) (rows_of (found_of asked.now)) }
    ensures planned { IfOk result (IsLogPlan (map string_bytes words.now)) }
    ensures unplanned { IfErr result (λ refusal. refusal ≢ refusals.Memory → (plan : LogPlan) → IsLogPlan (map string_bytes words.now) plan → ⊥) }
    ensures within { IfOk result (λ plan. (1 ≤ plan.partitions) × (plan.partitions ≤ 16) × (1 ≤ plan.partition) × (plan.partition ≤ plan.partitions)) }
{
    check_dashes(Verb::Log, words)?;
    let partitions = small_number_in(asked, PARTITIONS)?;
    let one_of_them = NumberOption {
        name: "partition",
        least: 1,
        greatest: u64::from(partitions),
        default: None,
        wanted: "--partition wants a number from 1 to the number of partitions",
    };
    let partition = small_number_in(asked, one_of_them)?;
    Ok(LogPlan {
        partitions,
        dir: Text::of(alloc, dir_in(asked))?,
        partition,
    })
}

// Makes the plan of the words behind `gen`, as clap read them.
fn gen_plan(words: &[String], asked: &ArgMatches<'_>) -> Result<GenPlan, Refusal>
    requires taken { IsMatched Verb.Gen (map string_bytes words.now) (rows_of (found_of asked.now)) }
    ensures planned { IfOk result (IsGenPlan (map string_bytes words.now)) }
    ensures unplanned { IfErr result (λ refusal. refusal ≢ refusals.Memory → (plan : GenPlan) → IsGenPlan (map string_bytes words.now) plan → ⊥) }
    ensures within { IfOk result (λ plan. (1 ≤ plan.partitions) × (plan.partitions ≤ 16) × (plan.requests ≤ 100000)) }
{
    check_dashes(Verb::Gen, words)?;
    Ok(GenPlan {
        number: number_in(asked, NUMBER)?,
        requests: small_number_in(asked, REQUESTS)?,
        partitions: small_number_in(asked, PARTITIONS)?,
    })
}

// The FILEs that are asked for, which have to be pairs.
fn files_in(alloc: Global, asked: &ArgMatches<'_>) -> Result<List<Text>, Refusal>
    ensures files { IfOk result (λ files. (files ≡ files_among (rows_of (found_of asked.now))) × (length files % 2 ≡ 0)) }
    ensures none { IfErr result (λ refusal. refusal ≢ refusals.Memory → length (files_among (rows_of (found_of asked.now))) % 2 ≡ 0 → ⊥) }
{
    let paths = asked.get_strs("FILE").unwrap_or(&[]);
    if paths.len() % 2 != 0 {
        return Err(Refusal::Wants("FILEs come in pairs, one that is read and one that is written"));
    }
    Ok(texts_of(alloc, paths)?)
}

// Copies of the texts.
fn texts_of(alloc: Global, texts: &[&str]) -> Result<List<Text>, AllocError>
    ensures { IfOk result (λ copies. copies ≡ map (λ text. text.now) texts.now) }
{
    let mut copies = List::empty(alloc);
    for text in texts {
        copies.push(Text::of(alloc, text)?)?;
    }
    Ok(copies)
}
