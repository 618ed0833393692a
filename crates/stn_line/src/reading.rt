ghost use Rattle.std.specs.Prelude.{◌≡◌, ◌≤◌, ◌∷◌, IfErr, IfOk, IsSomeAnd, [], ℕ, codes, map};
ghost use Rattle.clap.specs.Words.{fault_of, found_of, rows_of, subcommand_of, subcommand_rows_of};
ghost use Rattle.stn_line.specs.{Commands.{most_read_steps, most_seconds, stn as program}, Given.{asked_names, HasWords, IsEntered, IsOneOf, HasValue, IsNumberThere, IsNumberWhereGiven}, Lines.{IsWordsFault, AreNames, IsChoice, IsFlag, IsLineOf, IsNewLogOf, IsChangeOf, IsQuestionOf, IsNumberValue, IsOnLog, IsOption, IsSeconds, IsWordValue, IsWords}};
ghost use Rattle.stn_records.specs.Id.{most_sites};

use crate::commands::stn;
use crate::words::{
    DrawingWords, EventChoice, Line, LineFault, LogChange, LogQuestion, NameWords, NewLog, SiteLog,
};
use clap::ArgMatches;
use clap::error::ErrorKind;
use std::alloc::{AllocError, Global};
use stn_questions::{lone_query, read_outlook};
use stn_records::Site;

// A session or an exchange may take so many seconds where the words say nothing.
const USUAL_SECONDS: u16 = 60;

/// The command line that the words are; the first word is the program's name. Where clap takes the
/// words, only memory can fail.
pub fn line<'a>(alloc: Global, words: &'a [&'a str]) -> Result<Line<'a>, LineFault>
    ensures found { IfOk result (λ line. IsSomeAnd (subcommand_of program (map (λ word. word.now) words.entry.now))
        (λ command. IsLineOf line command.0 command.1)) }
    ensures taken { IfOk result (λ _. fault_of program (map (λ word. word.now) words.entry.now) ≡ []) }
    ensures refused { IfErr result (λ fault. IsWordsFault fault (map (λ word. word.now) words.entry.now)) }
{
    match stn(alloc)?.try_get_matches_from(words) {
        Ok(matches) => Ok(read(alloc, &matches)?),
        Err(error) if error.kind() == ErrorKind::OutOfMemory => Err(LineFault::Memory),
        Err(error) => Err(LineFault::Words(error)),
    }
}

// The command line of accepted words.
fn read<'a>(alloc: Global, matches: &ArgMatches<'a>) -> Result<Line<'a>, AllocError>
    requires { IsSomeAnd (subcommand_rows_of matches.now) (λ command. IsEntered command.0 command.1) }
    ensures { IfOk result (λ line. IsSomeAnd (subcommand_rows_of matches.now) (λ command. IsLineOf line command.0 command.1)) }
{
    let (name, words) = matches.subcommand().unwrap();
    command(alloc, name, words)
}

// The command of a name, with its words.
fn command<'a>(alloc: Global, name: &str, words: &ArgMatches<'a>) -> Result<Line<'a>, AllocError>
    requires { IsEntered name.now (rows_of (found_of words.now)) }
    ensures { IfOk result (λ line. IsLineOf line name.now (rows_of (found_of words.now))) }
{
    match name {
        "run" => Ok(Line::Run),
        "explain" => Ok(Line::Explain {
            code: option(words, "CODE"),
        }),
        "bare" | "init" | "loosen" => Ok(Line::Make(site_log(words), making(name, words))),
        "add" | "amend" | "withdraw" | "done" | "merge" => {
            Ok(Line::Change(site_log(words), changing(name, words)))
        }
        "guard" => guarding(alloc, words),
        "why" => Ok(Line::Ask(site_log(words), asking_why(words), names(words))),
        "check" | "draw" => {
            let question = listing(alloc, name, words)?;
            Ok(Line::Ask(site_log(words), question, names(words)))
        }
        "shell" => Ok(Line::Shell {
            log: site_log(words),
        }),
        "serve" | "send" => Ok(talking(name, words)),
        _ => Ok(asking(name, words)),
    }
}

// What makes a log.
fn making<'a>(name: &str, words: &ArgMatches<'a>) -> NewLog<'a>
    requires named { IsOneOf name.now (codes "bare" ∷ codes "init" ∷ codes "loosen" ∷ []) }
    requires words { HasWords name.now (rows_of (found_of words.now)) }
    ensures { IsNewLogOf result name.now (rows_of (found_of words.now)) }
{
    match name {
        "bare" => NewLog::Bare {
            steps: number(words, "STEPS"),
        },
        "init" => NewLog::Init {
            domain: word(words, "DOMAIN"),
            plan: word(words, "PLAN"),
        },
        _ => NewLog::Loosen {
            domain: word(words, "DOMAIN"),
            plan: word(words, "PLAN"),
            early: option(words, "early"),
            late: option(words, "late"),
            robust: flag(words, "robust"),
        },
    }
}

// What changes a log, by words of which each has its place.
fn changing<'a>(name: &str, words: &ArgMatches<'a>) -> LogChange<'a>
    requires named { IsOneOf name.now (codes "add" ∷ codes "amend" ∷ codes "withdraw" ∷ codes "done" ∷ codes "merge" ∷ []) }
    requires words { HasWords name.now (rows_of (found_of words.now)) }
    ensures { IsChangeOf result name.now (rows_of (found_of words.now)) }
{
    match name {
        "add" => LogChange::Add {
            from: word(words, "FROM"),
            to: word(words, "TO"),
            lo: option(words, "lo"),
            hi: option(words, "hi"),
        },
        "amend" => LogChange::Amend {
            id: word(words, "ID"),
            from: word(words, "FROM"),
            to: word(words, "TO"),
            lo: option(words, "lo"),
            hi: option(words, "hi"),
        },
        "withdraw" => LogChange::Withdraw {
            id: word(words, "ID"),
        },
        "done" => LogChange::Done {
            event: word(words, "EVENT"),
            time: word(words, "TIME"),
        },
        _ => LogChange::Merge {
            other: word(words, "OTHER"),
        },
    }
}

// The command that guards a log.
fn guarding<'a>(alloc: Global, words: &ArgMatches<'a>) -> Result<Line<'a>, AllocError>
    requires { HasWords (codes "guard") (rows_of (found_of words.now)) }
    ensures { IfOk result (λ line. IsLineOf line (codes "guard") (rows_of (found_of words.now))) }
{
    let owned = all_words(alloc, words, "own")?;
    Ok(Line::Change(site_log(words), LogChange::Guard { owned }))
}

// A question with a word that may be given any number of times.
fn listing<'a>(
    alloc: Global,
    name: &str,
    words: &ArgMatches<'a>,
) -> Result<LogQuestion<'a>, AllocError>
    requires named { IsOneOf name.now (codes "check" ∷ codes "draw" ∷ []) }
    requires words { HasWords name.now (rows_of (found_of words.now)) }
    ensures { IfOk result (λ question. IsQuestionOf question name.now (rows_of (found_of words.now))) }
{
    match name {
        "check" => Ok(LogQuestion::Check {
            times: all_words(alloc, words, "TIME")?,
        }),
        _ => Ok(LogQuestion::Draw(DrawingWords {
            now: option(words, "now"),
            arrows: option(words, "arrows"),
            owned: all_words(alloc, words, "own")?,
        })),
    }
}

// The question why.
fn asking_why<'a>(words: &ArgMatches<'a>) -> LogQuestion<'a>
    requires { HasWords (codes "why") (rows_of (found_of words.now)) }
    ensures { IsQuestionOf result (codes "why") (rows_of (found_of words.now)) }
{
    LogQuestion::Why {
        event: word(words, "EVENT"),
        to: option(words, "TO"),
    }
}

// The command that asks what is left, or what its name asks alone.
fn asking<'a>(name: &str, words: &ArgMatches<'a>) -> Line<'a>
    requires named { IsOneOf name.now asked_names }
    requires words { HasWords name.now (rows_of (found_of words.now)) }
    ensures { IsLineOf result name.now (rows_of (found_of words.now)) }
{
    let question = match lone_query(name.as_bytes()) {
        Some(query) => LogQuestion::Alone(query),
        None => LogQuestion::Foresee {
            outlook: read_outlook(name.as_bytes()).unwrap(),
            now: word(words, "NOW"),
            choice: choice(words),
        },
    };
    Line::Ask(site_log(words), question, names(words))
}

// A command that serves or reaches another site.
fn talking<'a>(name: &str, words: &ArgMatches<'a>) -> Line<'a>
    requires named { IsOneOf name.now (codes "serve" ∷ codes "send" ∷ []) }
    requires words { HasWords name.now (rows_of (found_of words.now)) }
    ensures { IsLineOf result name.now (rows_of (found_of words.now)) }
{
    let log = site_log(words);
    let address = word(words, "ADDR");
    let seconds = seconds(words);
    match name {
        "serve" => Line::Serve {
            log,
            address,
            count: number(words, "COUNT"),
            seconds,
        },
        _ => Line::Send {
            log,
            address,
            seconds,
        },
    }
}

// The seconds of a session or an exchange.
fn seconds(words: &ArgMatches<'_>) -> u16
    requires { IsNumberWhereGiven (codes "seconds") 1 most_seconds (rows_of (found_of words.now)) }
    ensures value { IsSeconds result (rows_of (found_of words.now)) }
    ensures within { (1 ≤ result) × (result ≤ most_seconds) }
{
    match option(words, "seconds") {
        Some(digits) => digits.parse().unwrap(),
        None => USUAL_SECONDS,
    }
}

// The value of a word that is there.
fn word<'a>(words: &ArgMatches<'a>, name: &str) -> &'a str
    requires { HasValue name.now (rows_of (found_of words.now)) }
    ensures { IsWordValue name.now result (rows_of (found_of words.now)) }
{
    option(words, name).unwrap()
}

// All values of a word that may be given any number of times, in their order.
fn all_words<'a>(
    alloc: Global,
    words: &ArgMatches<'a>,
    name: &str,
) -> Result<Vec<&'a str, Global>, AllocError>
    ensures { IfOk result (λ list. IsWords name.now list.items (rows_of (found_of words.now))) }
{
    match words.get_strs(name) {
        Some(values) => values.to_vec(alloc),
        None => Ok(Vec::new(alloc)),
    }
}

// The value of a word that may be left out, where it is given.
fn option<'a>(words: &ArgMatches<'a>, name: &str) -> Option<&'a str>
    ensures { IsOption name.now result (rows_of (found_of words.now)) }
{
    words.get_str(name)
}

// The events that a command is about.
fn choice<'a>(words: &ArgMatches<'a>) -> EventChoice<'a>
    ensures { IsChoice result (rows_of (found_of words.now)) }
{
    EventChoice {
        steps: option(words, "steps"),
        starts: flag(words, "starts"),
    }
}

// Where the names of steps come from.
fn names<'a>(words: &ArgMatches<'a>) -> NameWords<'a>
    ensures { AreNames result (rows_of (found_of words.now)) }
{
    NameWords {
        plan: option(words, "plan"),
        own: flag(words, "names"),
    }
}

// Whether a flag is given.
fn flag(words: &ArgMatches<'_>, name: &str) -> bool
    ensures { IsFlag name.now result (rows_of (found_of words.now)) }
{
    match option(words, name) {
        Some(value) => value == "true",
        None => false,
    }
}

// The log, and its site.
fn site_log<'a>(words: &ArgMatches<'a>) -> SiteLog<'a>
    requires log { HasValue (codes "LOG") (rows_of (found_of words.now)) }
    requires site { IsNumberThere (codes "SITE") 1 most_sites (rows_of (found_of words.now)) }
    ensures { IsOnLog result (rows_of (found_of words.now)) }
{
    SiteLog {
        name: word(words, "LOG"),
        site: site(words),
    }
}

// The site of the log.
fn site(words: &ArgMatches<'_>) -> Site
    requires { IsNumberThere (codes "SITE") 1 most_sites (rows_of (found_of words.now)) }
    ensures { IsNumberValue (codes "SITE") result (rows_of (found_of words.now)) }
{
    Site::new(number(words, "SITE") as u8).unwrap()
}

// The number that the digits of a word are.
fn number(words: &ArgMatches<'_>, name: &str) -> u16
    requires { IsNumberThere name.now 0 most_read_steps (rows_of (found_of words.now)) }
    ensures value { IsNumberValue name.now result (rows_of (found_of words.now)) }
    ensures within { (least most : ℕ) → IsNumberThere name.now least most (rows_of (found_of words.now))
        → (least ≤ result) × (result ≤ most) }
{
    option(words, name).unwrap().parse().unwrap()
}
