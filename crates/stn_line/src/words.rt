use std::alloc::{AllocError, Global};
use stn_questions::{LoneQuery, Outlook};
use stn_records::Site;
use thiserror::Error;

/// The log of a site.
#[derive(Clone, Copy)]
pub struct SiteLog<'a> {
    /// The name of the log.
    pub name: &'a str,
    /// The site. The log itself doesn't say which one it is.
    pub site: Site,
}

/// The events that a command is about: those of the steps that are named, or of all steps where none are; or the starts
/// of these steps alone.
#[derive(Clone, Copy)]
pub struct EventChoice<'a> {
    /// The steps, as `2,4-6`.
    pub steps: Option<&'a str>,
    /// Whether it is about starts alone.
    pub starts: bool,
}

/// What makes a log. The names of texts, and times in seconds, are given as they were written.
#[derive(Clone, Copy)]
pub enum NewLog<'a> {
    /// A plan of so many steps without a domain.
    Bare {
        steps: u16,
    },
    /// A plan text over a domain text.
    Init {
        domain: &'a str,
        plan: &'a str,
    },
    /// A plan whose steps may end so much earlier and so much later than a plan text over a domain text says; a time that is not
    /// given is 0. Where it is to be robust, the plan completes however long its steps take.
    Loosen {
        domain: &'a str,
        plan: &'a str,
        early: Option<&'a str>,
        late: Option<&'a str>,
        robust: bool,
    },
}

/// What changes a log. Events (`z`, `s1`, `e1`), steps, times (in seconds), ids (`1.2`) and the names of logs are given as they were
/// written.
#[derive(Drop)]
pub enum LogChange<'a> {
    /// Adds a bound on the time from one event to another; a side that is not given is open.
    Add {
        from: &'a str,
        to: &'a str,
        lo: Option<&'a str>,
        hi: Option<&'a str>,
    },
    /// Adds a bound in place of a record, which is replaced for good; a side that is not given is open.
    Amend {
        id: &'a str,
        from: &'a str,
        to: &'a str,
        lo: Option<&'a str>,
        hi: Option<&'a str>,
    },
    /// Withdraws a record.
    Withdraw {
        id: &'a str,
    },
    /// Records that an event took place at a time.
    Done {
        event: &'a str,
        time: &'a str,
    },
    /// Takes all that another log holds.
    Merge {
        other: &'a str,
    },
    /// Adds bounds under which each site may act alone; a word `SITE:STEPS` names steps of a site, and all other steps
    /// belong to the log's site.
    Guard {
        owned: Vec<&'a str, Global>,
    },
}

/// Where the names of a plan's steps come from, if an answer is to tell them.
#[derive(Clone, Copy)]
pub struct NameWords<'a> {
    /// The file of a plan text, for a bare plan.
    pub plan: Option<&'a str>,
    /// Whether it is the log's own plan text, of a plan of files.
    pub own: bool,
}

/// How a plan is drawn: from a time on, where one is given; with arrows, unless the word for them says no; with the steps of sites, as
/// in `Guard`.
#[derive(Drop)]
pub struct DrawingWords<'a> {
    pub now: Option<&'a str>,
    pub arrows: Option<&'a str>,
    pub owned: Vec<&'a str, Global>,
}

/// What is asked of a log. Events, steps, times (in seconds) and the names of texts are given as they were written.
#[derive(Drop)]
pub enum LogQuestion<'a> {
    /// Asks this, without further words.
    Alone(LoneQuery),
    /// Asks this of the chosen events from a time on.
    Foresee {
        outlook: Outlook,
        now: &'a str,
        choice: EventChoice<'a>,
    },
    /// Tells why an event's window ends where it does; of two events, why the second comes no sooner and no later after the first.
    Why {
        event: &'a str,
        to: Option<&'a str>,
    },
    /// Tells whether times, one for each event from `s1` on, are a schedule.
    Check {
        times: Vec<&'a str, Global>,
    },
    /// Draws the plan's steps on an axis of time, or a walk round the bounds that contradict each other.
    Draw(DrawingWords<'a>),
}

/// A command line. Its words are given as they were written: whoever does the command reads them.
#[derive(Drop)]
pub enum Line<'a> {
    /// Runs a script from the standard input.
    Run,
    /// Makes a log.
    Make(SiteLog<'a>, NewLog<'a>),
    /// Changes a log that is there.
    Change(SiteLog<'a>, LogChange<'a>),
    /// Asks a question of a log that is there, which stays as it is; the answer tells the steps by such names.
    Ask(SiteLog<'a>, LogQuestion<'a>, NameWords<'a>),
    /// Explains a refusal or a fault, by the number or the word that is printed for it; where none is given, lists all.
    Explain {
        code: Option<&'a str>,
    },
    /// Does the lines of the standard input, each as a command on the log, and answers each before it reads on.
    Shell {
        log: SiteLog<'a>,
    },
    /// Serves connections at an address, one after another; each session may take so many seconds.
    Serve {
        log: SiteLog<'a>,
        address: &'a str,
        count: u16,
        seconds: u16,
    },
    /// Exchanges records with the site that serves at an address, for so many seconds at most.
    Send {
        log: SiteLog<'a>,
        address: &'a str,
        seconds: u16,
    },
}

/// Why words are no command line.
#[derive(Debug, Error, Drop)]
pub enum LineFault {
    /// The words are no command's, or ask for help or the version: the text for the user, and
    /// whether it is a mistake.
    #[error("{0}")]
    Words(clap::Error),
    /// Memory ran out.
    #[error("out of memory")]
    Memory,
}

impl From<AllocError> for LineFault {
    ghost use Rattle.std.specs.Prelude.{◌≡◌};
    ghost use Rattle.stn_line.specs.declared.words.LineFault.TheVariants.{Memory};

    ghost from_gives = { λ _ fault. fault ≡ Memory };

    fn from(_fault: AllocError) -> LineFault {
        LineFault::Memory
    }
}
