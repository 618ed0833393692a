ghost use Rattle.std.specs.Prelude.{◌≡◌, false, fold, map, IfOk};
ghost use Rattle.clap.specs.Words.{App, app_of, rule_of, with_subcommand};
ghost use Rattle.stn_line.specs.{Commands.{stn as program, top as bare_top}, Table.{ReadsByShape, read_rule, read_shape}};

use crate::help::REFUSALS;
use clap::builder::ValueParser;
use clap::{Arg, ArgAction, Command};
use std::alloc::{AllocError, Global};
use stn_records::MOST_SITES;

// The number of steps of a bare plan is read up to this.
const MOST_READ_STEPS: u64 = 65_535;

// So many connections are served in turn at most.
const MOST_CONNECTIONS: u64 = 1_000;

// A session or an exchange may take so many seconds at most.
const MOST_SECONDS: u64 = 3_600;

// A word of a command: its name, what the help says of it, and the least and the greatest value of a number.
enum Word {
    // A word that has to be there.
    Text(&'static str, &'static str),
    // A number that has to be there.
    Number(&'static str, &'static str, u64, u64),
    // A word that may be left out.
    MaybeText(&'static str, &'static str),
    // Any number of words.
    Texts(&'static str, &'static str),
    // An option with a value, `--name=VALUE`; the help calls the value by the second text.
    Value(&'static str, &'static str, &'static str),
    // An option that is a number of seconds, `--name=N`.
    Seconds(&'static str, &'static str),
    // A flag, `--name`.
    Flag(&'static str, &'static str),
    // An option that names steps of a site, `--name=SITE:STEPS`. It may be given any number of times.
    Owned(&'static str, &'static str),
}

// A command: its name, what the help says of it, and its words.
struct Row {
    name: &'static str,
    about: &'static str,
    words: &'static [Word],
}

const LOG: Word = Word::Text("LOG", "The file that holds what the site knows");

const SITE: Word = Word::Number(
    "SITE",
    "The number of this site, from 1 to 64",
    1,
    MOST_SITES as u64,
);

const DOMAIN: Word = Word::Text("DOMAIN", "The file of the domain: durative actions in PDDL");

const PLAN: Word = Word::Text(
    "PLAN",
    "The file of the plan: lines as `0.000: (action a b) [5.000]`",
);

const FROM: Word = Word::Text("FROM", "The event to count from: `z`, `s1`, `e1`");

const TO: Word = Word::Text("TO", "The event to count to");

const LO: Word = Word::Value(
    "lo",
    "T",
    "TO comes at least T seconds after FROM; open if not given",
);

const HI: Word = Word::Value(
    "hi",
    "T",
    "TO comes at most T seconds after FROM; open if not given",
);

const NAMES: Word = Word::Value(
    "plan",
    "PLAN",
    "The file of a plan whose actions name the steps; for a bare or loosened plan",
);

const OWN_NAMES: Word = Word::Flag(
    "names",
    "The log's own plan names the steps; for a log of `init`",
);

// The words of what is asked of the events that are left.
const OUTLOOK: [Word; 7] = [
    LOG,
    SITE,
    Word::Text("NOW", "The time now, in seconds after the origin"),
    Word::Value(
        "steps",
        "STEPS",
        "Only events of these steps, as `2,4-6`, count as left; all, if not given",
    ),
    Word::Flag("starts", "Only starts count as left"),
    NAMES,
    OWN_NAMES,
];

// What runs scripts, makes logs and changes them. The commands stand in two tables: one of all would exceed the prover's steps.
const CHANGES: [Row; 10] = [
    Row {
        name: "run",
        about: "Runs the script on standard input",
        words: &[],
    },
    Row {
        name: "bare",
        about: "Makes the log of a plan of STEPS steps, without bounds between them",
        words: &[
            LOG,
            SITE,
            Word::Number(
                "STEPS",
                "How many steps, each with a start and an end",
                0,
                MOST_READ_STEPS,
            ),
        ],
    },
    Row {
        name: "init",
        about: "Makes the log of a planner's plan",
        words: &[LOG, SITE, DOMAIN, PLAN],
    },
    Row {
        name: "loosen",
        about: "Makes the log of a planner's plan whose steps may end earlier or later",
        words: &[
            LOG,
            SITE,
            DOMAIN,
            PLAN,
            Word::Value(
                "early",
                "T",
                "How many seconds less than planned a step may take; 0 if not given",
            ),
            Word::Value(
                "late",
                "T",
                "How many seconds more than planned a step may take; 0 if not given",
            ),
            Word::Flag(
                "robust",
                "Bound the starts so that the plan completes however long the steps take",
            ),
        ],
    },
    Row {
        name: "add",
        about: "Adds a bound on the time from one event to another",
        words: &[LOG, SITE, FROM, TO, LO, HI],
    },
    Row {
        name: "amend",
        about: "Replaces a record by a new bound, for good and in one step",
        words: &[
            LOG,
            SITE,
            Word::Text("ID", "The id of the record to replace, as `1.2`"),
            FROM,
            TO,
            LO,
            HI,
        ],
    },
    Row {
        name: "withdraw",
        about: "Withdraws a record for good",
        words: &[
            LOG,
            SITE,
            Word::Text(
                "ID",
                "The id that `add`, `amend` or `done` printed, as `1.2`",
            ),
        ],
    },
    Row {
        name: "done",
        about: "Records that an event took place",
        words: &[
            LOG,
            SITE,
            Word::Text("EVENT", "The event that took place: `s1`, `e1`"),
            Word::Text("TIME", "When it took place, in seconds after the origin"),
        ],
    },
    Row {
        name: "merge",
        about: "Takes in everything in another site's log",
        words: &[
            LOG,
            SITE,
            Word::Text("OTHER", "Another site's log of the same plan"),
        ],
    },
    Row {
        name: "guard",
        about: "Adds windows that make the plan hold whatever each site does within its own bounds",
        words: &[
            LOG,
            SITE,
            Word::Owned(
                "own",
                "Steps of a site, as `2:4-6`; given once for each other site, and all other steps are SITE's",
            ),
        ],
    },
];

// What asks logs, explains, and meets other sites.
const QUESTIONS: [Row; 15] = [
    Row {
        name: "report",
        about: "Prints each event's window of times, or the bounds that contradict each other",
        words: &[LOG, SITE, NAMES, OWN_NAMES],
    },
    Row {
        name: "next",
        about: "Says which event to run next, and when",
        words: &OUTLOOK,
    },
    Row {
        name: "ready",
        about: "Says which events may run from NOW on, and until when",
        words: &OUTLOOK,
    },
    Row {
        name: "why",
        about: "Says which bounds hold the ends of an event's window, or of the time between two events",
        words: &[
            LOG,
            SITE,
            Word::Text("EVENT", "The event: `s1`, `e1`, or `z` for the origin"),
            Word::MaybeText("TO", "A second event: how long after the first it comes"),
            NAMES,
            OWN_NAMES,
        ],
    },
    Row {
        name: "repairs",
        about: "Prints what mends a conflict: each record without which the others can be kept, and which to drop",
        words: &[LOG, SITE, NAMES, OWN_NAMES],
    },
    Row {
        name: "records",
        about: "Prints the records in the log, also those that no longer count",
        words: &[LOG, SITE, NAMES, OWN_NAMES],
    },
    Row {
        name: "steps",
        about: "Prints the steps of the plan: the action, the planned start and the duration of each",
        words: &[LOG, SITE, NAMES],
    },
    Row {
        name: "bounds",
        about: "Prints all bounds that count, the plan's first",
        words: &[LOG, SITE, NAMES, OWN_NAMES],
    },
    Row {
        name: "check",
        about: "Says whether times, one for each event, are a schedule",
        words: &[
            LOG,
            SITE,
            Word::Texts(
                "TIME",
                "The times of `s1`, `e1`, `s2` .. in seconds, one for each event",
            ),
        ],
    },
    Row {
        name: "rehearse",
        about: "Prints the rest of the plan as `next` would run it from NOW on",
        words: &OUTLOOK,
    },
    Row {
        name: "draw",
        about: "Draws the plan as a picture (SVG): its steps and when they may run, or the conflict",
        words: &[
            LOG,
            SITE,
            Word::Value(
                "now",
                "T",
                "The time now: all that is left comes at T or later; not shown, if not given",
            ),
            Word::Value(
                "arrows",
                "WORD",
                "Whether arrows lead to each start from what holds it back: `yes`, if not given, or `no`",
            ),
            NAMES,
            Word::Owned(
                "own",
                "Steps of a site, as `2:4-6`, which get the site's colour and number; given once for each site",
            ),
        ],
    },
    Row {
        name: "explain",
        about: "Says what a refusal or a fault means, and what to do about it",
        words: &[Word::MaybeText(
            "CODE",
            "The number after `refused`, or the word after `fault`; all, if not given",
        )],
    },
    Row {
        name: "shell",
        about: "Answers each line of standard input, a command without LOG and SITE, and an empty line after it",
        words: &[LOG, SITE],
    },
    Row {
        name: "serve",
        about: "Exchanges records with the sites that connect",
        words: &[
            LOG,
            SITE,
            Word::Text("ADDR", "The address to listen at, as `127.0.0.1:7000`"),
            Word::Number(
                "COUNT",
                "How many connections to serve, one after another",
                1,
                MOST_CONNECTIONS,
            ),
            Word::Seconds(
                "seconds",
                "How many seconds a session may take, from 1 to 3600; 60 if not given",
            ),
        ],
    },
    Row {
        name: "send",
        about: "Exchanges records with the site that serves at an address",
        words: &[
            LOG,
            SITE,
            Word::Text("ADDR", "The address at which the other site serves"),
            Word::Seconds(
                "seconds",
                "How many seconds the exchange may take, from 1 to 3600; 60 if not given",
            ),
        ],
    },
];

/// The program with all its commands, and their help.
pub(crate) fn stn<'a>(alloc: Global) -> Result<Command<'a>, AllocError>
    ensures app { IfOk result (λ command. app_of command ≡ program) }
{
    let changing = with_rows(alloc, top(alloc), &CHANGES)?;
    with_rows(alloc, changing, &QUESTIONS)
}

// A program with the commands of these rows after its own.
fn with_rows<'a>(alloc: Global, start: Command<'a>, rows: &[Row]) -> Result<Command<'a>, AllocError>
    ensures { (app : App) → app_of start.entry ≡ app → IfOk result (λ command. app_of command ≡ fold with_subcommand app (map read_shape rows.now)) }
{
    let mut program = start;
    'rows: for row in rows {
        program = program.subcommand(command(alloc, row)?)?;
    }
    Ok(program)
}

// The program before its commands are added.
fn top<'a>(alloc: Global) -> Command<'a>
    ensures app { app_of result ≡ bare_top }
{
    Command::new(alloc, "stn")
        .about(
            "Keeps one timed plan at several sites, and answers with each event's window of times",
        )
        .after_help(REFUSALS)
        .version("0.1.0")
        .arg_required_else_help(true)
        .subcommand_required(true)
}

// A command, as a row says it.
fn command<'a>(alloc: Global, row: &Row) -> Result<Command<'a>, AllocError>
    ensures is { IfOk result (ReadsByShape (read_shape row.now)) }
{
    let mut command = Command::new(alloc, row.name).about(row.about);
    'words: for word in row.words {
        command = command.arg(argument(alloc, word))?;
    }
    Ok(command)
}

// A word, as clap reads it.
fn argument<'a>(alloc: Global, word: &Word) -> Arg<'a>
    ensures rule { rule_of result ≡ read_rule word.now }
    ensures own { result.global ≡ false }
{
    match *word {
        Word::Text(name, help) => Arg::new(alloc, name).required(true).help(help),
        Word::Number(name, help, least, most) => Arg::new(alloc, name)
            .required(true)
            .value_parser(ValueParser::unsigned(least, most))
            .help(help),
        Word::MaybeText(name, help) => Arg::new(alloc, name).help(help),
        Word::Texts(name, help) => Arg::new(alloc, name).num_args(..).help(help),
        Word::Value(name, value, help) => Arg::new(alloc, name)
            .long(name)
            .value_name(value)
            .help(help),
        Word::Seconds(name, help) => Arg::new(alloc, name)
            .long(name)
            .value_name("N")
            .value_parser(ValueParser::unsigned(1, MOST_SECONDS))
            .help(help),
        Word::Flag(name, help) => Arg::new(alloc, name)
            .long(name)
            .action(ArgAction::SetTrue)
            .help(help),
        Word::Owned(name, help) => Arg::new(alloc, name)
            .long(name)
            .value_name("SITE:STEPS")
            .action(ArgAction::Append)
            .help(help),
    }
}
