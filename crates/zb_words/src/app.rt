ghost use Rattle.std.specs.Prelude.{◌≡◌, false, codes, map, IfOk};
ghost use Rattle.clap.specs.Words.{app_of, rule_of};
ghost use Rattle.clap.specs.Simple.{with_subcommand};
ghost use Rattle.zb_words.specs.App.{HasRules, IsCommandOf, file_rule, given_rule_of, shape_for, zbd_app};

use crate::verb::Verb;
use clap::builder::ValueParser;
use clap::{Arg, ArgAction, Command};
use std::alloc::{AllocError, Global};

/// What clap reads the words by.
pub fn app<'a>(alloc: Global) -> Result<Command<'a>, AllocError>
    ensures { IfOk result (λ app. app_of app ≡ zbd_app) }
{
    let mut app = Command::new(alloc, "zbd")
        .no_binary_name(true)
        .subcommand_required(true)
        .about("A durable workflow server");
    for verb in VERBS {
        app = with_verb(alloc, app, verb)?;
    }
    app.bin_name("zbd")
}

/// What clap reads the words behind the verb by.
pub fn command_of<'a>(alloc: Global, verb: Verb) -> Result<Command<'a>, AllocError> {
    let command = verb_command(alloc, verb)?;
    command.bin_name(match verb {
        Verb::Serve => "zbd serve",
        Verb::Log => "zbd log",
        Verb::Gen => "zbd gen",
    })
}

// The verbs, as help lists them.
const VERBS: [Verb; 3] = [Verb::Serve, Verb::Log, Verb::Gen];

// Adds the subcommand of a verb.
fn with_verb<'a>(alloc: Global, app: Command<'a>, verb: Verb) -> Result<Command<'a>, AllocError>
    ensures { IfOk result (λ r. app_of r ≡ with_subcommand (app_of app.entry) (shape_for verb)) }
{
    match verb_command(alloc, verb) {
        Ok(command) => app.subcommand(command),
        Err(no_memory) => {
            drop(app);
            Err(no_memory)
        }
    }
}

// Reads the words behind a verb.
fn verb_command<'a>(alloc: Global, verb: Verb) -> Result<Command<'a>, AllocError>
    ensures { IfOk result (IsCommandOf verb) }
{
    match verb {
        Verb::Serve => serve_command(alloc),
        Verb::Log => log_command(alloc),
        Verb::Gen => gen_command(alloc),
    }
}

// Reads the words behind `serve`.
fn serve_command<'a>(alloc: Global) -> Result<Command<'a>, AllocError>
    ensures { IfOk result (IsCommandOf Verb.Serve) }
{
    let command = Command::new(alloc, "serve").about(
        "Serves sessions over the partitions of a directory",
    );
    let command = with_options(alloc, command, &SERVE_OPTIONS)?;
    command.arg(files(alloc))
}

// Reads the words behind `log`.
fn log_command<'a>(alloc: Global) -> Result<Command<'a>, AllocError>
    ensures { IfOk result (IsCommandOf Verb.Log) }
{
    let command = Command::new(alloc, "log").about("Shows the log of a partition");
    with_options(alloc, command, &LOG_OPTIONS)
}

// Reads the words behind `gen`.
fn gen_command<'a>(alloc: Global) -> Result<Command<'a>, AllocError>
    ensures { IfOk result (IsCommandOf Verb.Gen) }
{
    let command = Command::new(alloc, "gen").about("Serves a workload that is made");
    with_options(alloc, command, &GEN_OPTIONS)
}

/// An option with a value, which isn't empty, as help tells of it.
#[derive(Clone, Copy)]
pub struct GivenOption {
    name: &'static str,
    value: &'static str,
    help: &'static str,
    required: bool,
}

// How many partitions there are.
const PARTITIONS: GivenOption = GivenOption {
    name: "partitions",
    value: "N",
    help: "How many partitions there are, 1 to 16 [default: 1]",
    required: false,
};

// The directory of their files.
const DIR: GivenOption = GivenOption {
    name: "dir",
    value: "PATH",
    help: "The directory of their files [default: zb]",
    required: false,
};

// The options behind `serve`.
const SERVE_OPTIONS: [GivenOption; 5] = [
    PARTITIONS,
    DIR,
    GivenOption {
        name: "clock",
        value: "real|manual",
        help: "The clock that the server goes by [default: real]",
        required: false,
    },
    GivenOption {
        name: "limit",
        value: "N",
        help: "The most bytes that a log may have, 64 to 4294967296 [default: 1073741824]",
        required: false,
    },
    GivenOption {
        name: "units",
        value: "N",
        help: "The most units of work that are done behind a request, 0 to 1000000 [default: 1000]",
        required: false,
    },
];

// The options behind `log`.
const LOG_OPTIONS: [GivenOption; 3] = [
    PARTITIONS,
    DIR,
    GivenOption {
        name: "partition",
        value: "N",
        help: "The partition, from 1 on",
        required: true,
    },
];

// The options behind `gen`.
const GEN_OPTIONS: [GivenOption; 3] = [
    GivenOption {
        name: "number",
        value: "N",
        help: "What the workload is drawn from, 0 to 18446744073709551615",
        required: true,
    },
    GivenOption {
        name: "requests",
        value: "N",
        help: "How many requests follow the first one, 0 to 100000",
        required: true,
    },
    PARTITIONS,
];

// Adds options to a command.
fn with_options<'a>(
    alloc: Global,
    command: Command<'a>,
    options: &[GivenOption],
) -> Result<Command<'a>, AllocError>
    ensures { IfOk result (HasRules command.entry (map given_rule_of options.now)) }
{
    let mut more = command;
    for option in options {
        more = more.arg(given(alloc, *option))?;
    }
    Ok(more)
}

// An option, as clap is told of it.
fn given<'a>(alloc: Global, option: GivenOption) -> Arg<'a>
    ensures rule { rule_of result ≡ given_rule_of option }
    ensures local { result.global ≡ false }
{
    Arg::new(alloc, option.name)
        .long(option.name)
        .value_name(option.value)
        .value_parser(ValueParser::NonEmptyString)
        .help(option.help)
        .required(option.required)
}

// The FILEs.
fn files<'a>(alloc: Global) -> Arg<'a>
    ensures rule { rule_of result ≡ file_rule }
    ensures local { result.global ≡ false }
{
    Arg::new(alloc, "FILE").action(ArgAction::Append).help(
        "For each session the file that is read and the file that is written",
    )
}
