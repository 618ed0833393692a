ghost use Rattle.stn_line.specs.Explanations.Table.{IsTable};

use crate::explanations::subject::Subject;
use stn_refusal::{Code, Fault};

/// What is said of a subject.
pub struct Entry {
    pub subject: Subject,
    /// A few words on what it means, on one line.
    pub meaning: &'static str,
    /// What its second word is, what usually causes it, and what to do: a line for each, and no empty line, since a shell ends
    /// its answer with one.
    pub more: &'static str,
}

const ENTRIES: [Entry; 50] = [
    Entry {
        subject: Subject::Refusal(Code::Malformed),
        meaning: "not a time",
        more: "\
A time is a number of seconds in decimals, as 5, 2.5 or 0.001, with a `-` before it if it is negative.\n\
Usual causes: a unit (`5s`), a comma (`2,5`), an exponent (`1e3`), a `+`, or a digit missing beside the point (`5.`, `.5`).\n\
What to do: write the time in seconds. A side of a bound that is to be open is left out, or is `*` in a script.\n",
    },
    Entry {
        subject: Subject::Refusal(Code::TooFine),
        meaning: "a time is finer than a millisecond",
        more: "\
Times are whole milliseconds: each digit after the third decimal place has to be 0.\n\
Usual cause: a time that another program computed and printed with more digits.\n\
What to do: round it to the millisecond yourself, so that you know in which direction.\n",
    },
    Entry {
        subject: Subject::Refusal(Code::OutOfRange),
        meaning: "a time is beyond the horizon",
        more: "\
A time lies between -31536000.000 and 31536000.000 seconds, a year before and after the origin.\n\
Usual causes: a time of the calendar in place of one counted from the origin, or milliseconds in place of seconds.\n\
What to do: count from the origin that the sites agreed on, in seconds.\n",
    },
    Entry {
        subject: Subject::Refusal(Code::NoEvent),
        meaning: "no such event",
        more: "\
The plan has no event of this name. A plan of n steps has z, s1, e1 up to sn, en.\n\
Usual causes: a step that the plan lacks, the origin z where an event is to be executed, or records of a plan with more steps.\n\
What to do: `stn steps LOG SITE` lists the steps.\n",
    },
    Entry {
        subject: Subject::Refusal(Code::SameEvent),
        meaning: "a bound, or a question, names one event twice",
        more: "\
A bound says how much later one event comes than another one.\n\
Usual cause: FROM and TO are the same word, as s1 s1 where s1 e1 was meant.\n\
What to do: name two events; to bound the time of one event, count from z.\n",
    },
    Entry {
        subject: Subject::Refusal(Code::Crossed),
        meaning: "lo is above hi",
        more: "\
A bound has to leave at least one time: lo is at most hi.\n\
Usual causes: the two sides are exchanged, or both events are.\n\
What to do: exchange the sides; `s1 e1 5 6` says that e1 comes 5 to 6 seconds after s1.\n",
    },
    Entry {
        subject: Subject::Refusal(Code::Overdue),
        meaning: "an event is overdue",
        more: "\
A rehearsal begins at a time at which no event that is left can come next any more.\n\
The second word is the event whose latest time has passed, of several the one with the least number.\n\
Usual causes: the event took place and nobody recorded it with `done`, another site did and you have not heard, or the plan is late.\n\
What to do: record what took place, merge with the other sites, or ask `why` of the event and give its bounds more time.\n",
    },
    Entry {
        subject: Subject::Refusal(Code::DomainTooLong),
        meaning: "the domain is too long",
        more: "\
A domain has at most 65,536 bytes.\n\
Usual cause: another file was given.\n\
What to do: give the domain alone; comments count too.\n",
    },
    Entry {
        subject: Subject::Refusal(Code::DomainSyntax),
        meaning: "syntax of the domain",
        more: "\
The text has not the form that it should have here.\n\
The second word is the line of the domain's text, counted from 1.\n\
Usual causes: a bracket missing or left over, a list without its first word, a file that begins with a byte order mark, or another file.\n\
What to do: look at that line and at the brackets before it.\n",
    },
    Entry {
        subject: Subject::Refusal(Code::DomainTooDeep),
        meaning: "brackets of the domain are nested too deep",
        more: "\
Too many brackets are open at once.\n\
The second word is its line.\n\
Usual cause: closing brackets that are missing in the actions before.\n\
What to do: look for the first action whose brackets don't close.\n",
    },
    Entry {
        subject: Subject::Refusal(Code::DomainUnsupported),
        meaning: "the domain uses what is not supported",
        more: "\
Durative actions with one constant duration are read, and conjunctions of atoms and negated atoms. All else is refused.\n\
The second word is its line.\n\
Usual causes: `:action`, `:functions`, numeric conditions, `or`, `forall`, `when`, or a duration that is not one constant.\n\
What to do: write these actions as durative actions in the form that is read.\n",
    },
    Entry {
        subject: Subject::Refusal(Code::DomainNumber),
        meaning: "a word of the domain should be a number",
        more: "\
The duration of an action is a time in seconds: not negative, to the millisecond.\n\
The second word is its line.\n\
Usual causes: a duration that names a function or a parameter, or one that is finer than a millisecond.\n\
What to do: write the duration as a number.\n",
    },
    Entry {
        subject: Subject::Refusal(Code::DomainTwice),
        meaning: "the domain says something twice",
        more: "\
A name or a part of an action stands there twice.\n\
The second word is the line of the second one.\n\
Usual causes: two actions of one name, or a parameter that is listed twice.\n\
What to do: rename or remove one.\n",
    },
    Entry {
        subject: Subject::Refusal(Code::DomainVariable),
        meaning: "an unknown variable in the domain",
        more: "\
A condition or an effect uses a variable that is no parameter of its action.\n\
The second word is its line.\n\
Usual causes: a slip in the name, or a `?` too many.\n\
What to do: add it to `:parameters`, or correct the name.\n",
    },
    Entry {
        subject: Subject::Refusal(Code::PlanTooLong),
        meaning: "the plan is too long",
        more: "\
A plan has at most 65,536 bytes.\n\
Usual cause: the planner's console log was given with it.\n\
What to do: give the lines of the steps alone.\n",
    },
    Entry {
        subject: Subject::Refusal(Code::PlanSyntax),
        meaning: "syntax of the plan",
        more: "\
A line of the plan is not `<time>: (<action> <argument> ..) [<duration>]`.\n\
The second word is the line of the plan's text, counted from 1.\n\
Usual causes: other lines that the planner printed, a file that begins with a byte order mark, or a domain given as the plan.\n\
What to do: remove what is no step; comments begin with `;`.\n",
    },
    Entry {
        subject: Subject::Refusal(Code::PlanNumber),
        meaning: "a time of the plan is not a number, or too fine",
        more: "\
The time or the duration of a step should be a time in seconds, to the millisecond.\n\
The second word is its line.\n\
Usual cause: the planner separates events by less than a millisecond.\n\
What to do: set the planner's separation to 0.001. Don't round: two events could get the same time.\n",
    },
    Entry {
        subject: Subject::Refusal(Code::PlanNegative),
        meaning: "a time of the plan is negative",
        more: "\
A step starts at the origin or later, and its duration is not negative.\n\
The second word is its line.\n\
What to do: move the plan, so that its first step starts at 0.\n",
    },
    Entry {
        subject: Subject::Refusal(Code::PlanTooManySteps),
        meaning: "too many steps in the plan",
        more: "\
A plan has at most 256 steps.\n\
What to do: cut the plan into parts, and make a log of each.\n",
    },
    Entry {
        subject: Subject::Refusal(Code::UnknownAction),
        meaning: "the domain has no such action",
        more: "\
A step of the plan names an action that the domain lacks.\n\
The second word is the step, counted from 1 without blank lines and comments.\n\
Usual cause: the plan belongs to another domain.\n\
What to do: give the domain with which the plan was made.\n",
    },
    Entry {
        subject: Subject::Refusal(Code::Arity),
        meaning: "the number of arguments is wrong",
        more: "\
A step has more or fewer arguments than its action has parameters.\n\
The second word is the step, counted from 1.\n\
Usual cause: the domain was changed after the plan was made.\n\
What to do: make the plan anew, or give the domain with which it was made.\n",
    },
    Entry {
        subject: Subject::Refusal(Code::DurationDiffers),
        meaning: "the plan gives another duration than the domain",
        more: "\
The duration in the brackets of a step is not that of its action.\n\
The second word is the step, counted from 1.\n\
Usual causes: the planner rounded the duration, or the domain was changed after the plan was made.\n\
What to do: make the two equal, or leave the brackets of the plan out.\n",
    },
    Entry {
        subject: Subject::Refusal(Code::PastHorizon),
        meaning: "a step ends past the horizon",
        more: "\
The planned end of a step is more than a year after the origin.\n\
The second word is the step, counted from 1.\n\
Usual cause: the plan's times are in milliseconds, and are read as seconds.\n\
What to do: give times in seconds.\n",
    },
    Entry {
        subject: Subject::Refusal(Code::BareTooManySteps),
        meaning: "more than 256 steps",
        more: "\
A plan has at most 256 steps.\n\
What to do: make a log of fewer steps.\n",
    },
    Entry {
        subject: Subject::Refusal(Code::Clash),
        meaning: "an id has two different records",
        more: "\
Two logs hold different records, or different amendments, under one id. They can't be merged.\n\
The second word is the least such id; without one, the other site found it in what you sent.\n\
Usual causes: two logs were used under one SITE, or a log was replaced by an older copy of itself and used again.\n\
What to do: decide which of the two logs stays, and make the other one anew under a number that nobody used (the guide, \"A number that was used twice\").\n",
    },
    Entry {
        subject: Subject::Refusal(Code::Full),
        meaning: "too many ids",
        more: "\
A log holds at most 4,096 ids, those that are withdrawn or replaced counted too. Here there would be more.\n\
Usual causes: a plan that was amended very often, or a plan whose steps nearly all interfere and is to be loosened.\n\
What to do: begin a new log of the same plan, and add what still counts.\n",
    },
    Entry {
        subject: Subject::Refusal(Code::Unknown),
        meaning: "no such record",
        more: "\
The log knows no record of this id, so it can't be withdrawn or replaced.\n\
Usual causes: the record is in another site's log and you have not merged it yet, or a digit is wrong.\n\
What to do: `stn records LOG SITE` lists the ids; merge first if another site made the record.\n",
    },
    Entry {
        subject: Subject::Refusal(Code::CounterSpent),
        meaning: "no ids are left at the site",
        more: "\
The site's next id would be past 65535, so the site can add nothing more.\n\
Usual cause: another program wrote a record with a very large number under this SITE.\n\
What to do: go on under a number that nobody used.\n",
    },
    Entry {
        subject: Subject::Refusal(Code::SelfReplace),
        meaning: "a record would replace itself",
        more: "\
An amendment names its own id as the one that it replaces.\n\
Usual cause: a frame that no program of this kind made.\n\
What to do: look at what wrote it.\n",
    },
    Entry {
        subject: Subject::Refusal(Code::NotRobust),
        meaning: "no times of the starts hold for all durations",
        more: "\
No times of the starts let the plan complete whatever each step's duration is within the tolerance.\n\
The reason's lines are links of a cycle, as of a conflict, moved from ends to starts; after `by` stand the steps that moved them.\n\
By `plan.10 lower e1 e2 3.500 by 1 2`, s2 comes at least 3.5 seconds after s1.\n\
Usual causes: steps that interfere are planned at one time, or closer than the tolerance lets durations vary.\n\
What to do: plan more time between such steps, give a smaller tolerance, or loosen without `--robust`.\n",
    },
    Entry {
        subject: Subject::Refusal(Code::FrameLength),
        meaning: "a frame has a wrong length",
        more: "\
The bytes are no log, or no message of another site: a length is 0 or too large.\n\
Usual causes: a text, a plan or a domain was given as a log, or something else listens at the address.\n\
What to do: give the log of a site, as `bare`, `init` and `loosen` make it.\n",
    },
    Entry {
        subject: Subject::Refusal(Code::FrameKind),
        meaning: "there is no such kind of frame",
        more: "\
The bytes are no log, or no message of another site: a kind is unknown.\n\
Usual causes: a file that is not a log, or a program of a later version on the other side.\n\
What to do: use the same version of the program at both sites.\n",
    },
    Entry {
        subject: Subject::Refusal(Code::FrameBody),
        meaning: "a frame breaks a rule of its kind",
        more: "\
The bytes of a frame are not what its kind allows: ids out of order, an id twice, a side beyond the horizon, or too few bytes.\n\
Usual causes: a damaged file, or one that another program wrote.\n\
What to do: use a copy of the log, or take the site's records from the sites that it merged with.\n",
    },
    Entry {
        subject: Subject::Refusal(Code::OldFrame),
        meaning: "a frame of the old version can't be written",
        more: "\
Frames of the old version are read and never written.\n\
Usual cause: a program that uses the library of frames handed it one.\n\
What to do: load the log, and save it: it is written in the new version.\n",
    },
    Entry {
        subject: Subject::Refusal(Code::OtherPlan),
        meaning: "two different plans",
        more: "\
Only logs of one plan can be merged: the same number of steps, or the same bytes of the domain and of the plan.\n\
Usual causes: a comment or a blank was changed in one of the files, or one log is loosened and the other is not.\n\
Logs that were loosened with other tolerances are of one plan: made under one SITE they clash (40), under two the bounds of both count.\n\
What to do: copy the first log to the other sites, or make each from the same files by the same command.\n",
    },
    Entry {
        subject: Subject::Refusal(Code::Unexpected),
        meaning: "an unexpected message",
        more: "\
A site sent a message that has no place here.\n\
Usual cause: a program that is not `stn` speaks to `serve`.\n\
What to do: use `stn send`.\n",
    },
    Entry {
        subject: Subject::Refusal(Code::LogForm),
        meaning: "not a log",
        more: "\
The file doesn't begin as a log does, or ends in the middle of it.\n\
Usual causes: an empty file, a copy that was cut short, or two logs one after the other in one file.\n\
What to do: copy the file again; `cp` gives a whole log at any moment.\n",
    },
    Entry {
        subject: Subject::Refusal(Code::Reply),
        meaning: "an unexpected reply",
        more: "\
The site at the address answered something else than `serve` would, or closed the connection before it had answered.\n\
Usual causes: another program listens there, or the other site was stopped.\n\
What to do: look at what `serve` printed there, and send again: nothing was changed here.\n",
    },
    Entry {
        subject: Subject::Refusal(Code::LogThere),
        meaning: "LOG already exists",
        more: "\
`bare`, `init` and `loosen` make a new log and never overwrite a file.\n\
Usual cause: the log was made before.\n\
What to do: use it, or give another name.\n",
    },
    Entry {
        subject: Subject::Refusal(Code::OldVersion),
        meaning: "a site of an old version",
        more: "\
The other site speaks the old version, which this one reads in files only.\n\
What to do: use the same version of the program at both sites.\n",
    },
    Entry {
        subject: Subject::Refusal(Code::Line),
        meaning: "a word or a line has the wrong form",
        more: "\
The second word is the line of the script, or of a shell's input, counted from 1; 0 is the command itself.\n\
Usual causes: a word that is no event (events are z, s1, e1 ..), a word that is no id (as 1.2), a command that has one word too many or too few, a tolerance of `loosen` below 0, and in `check` not one time for each event.\n\
`--steps` takes STEPS as `2,4-6`, counted from 1; `--own` takes SITE:STEPS, as `2:4-6`, and no step may be named by two of them.\n\
`--plan` takes a file with as many steps, for a bare or loosened plan; `--names` is for a plan of files.\n\
A script's heading is refused so if a block of it has no line `end`; a shell's line, if it is not a command on the log that is there.\n\
What to do: `stn COMMAND --help` says which words a command takes.\n",
    },
    Entry {
        subject: Subject::Refusal(Code::NoSite),
        meaning: "no such site",
        more: "\
Sites are counted from 1 to the number in the script's line `sites`, which is at most 64.\n\
What to do: give a larger number there, or another site here.\n",
    },
    Entry {
        subject: Subject::Refusal(Code::NoPacket),
        meaning: "no such packet",
        more: "\
Packets of a script are counted from 1, in the order in which they were sent.\n\
What to do: deliver one that was sent before this line.\n",
    },
    Entry {
        subject: Subject::Refusal(Code::TooManyPackets),
        meaning: "too many packets",
        more: "\
A script sends at most 256 packets.\n\
What to do: use `merge`, or cut the script into parts.\n",
    },
    Entry {
        subject: Subject::Fault(Fault::File),
        meaning: "a file can't be opened, made, locked or renamed",
        more: "\
Usual causes: there is no such file or folder, it is a folder, you have no right to it, or the disk is full.\n\
What to do: look at the name and at the rights of the file, of its folder, and of the file LOG.lock beside a log. The log is as it was.\n",
    },
    Entry {
        subject: Subject::Fault(Fault::Net),
        meaning: "an address can't be used",
        more: "\
The address can't be bound, can't be reached in time, or a connection could not be accepted.\n\
Usual causes: an address without a port (write 127.0.0.1:7000), a port that another program uses, a host that is not there, or a firewall.\n\
What to do: look whether `serve` runs there and has printed `listening`.\n",
    },
    Entry {
        subject: Subject::Fault(Fault::Read),
        meaning: "a device failed while it was read",
        more: "\
Usual causes: LOG is a folder, a disk has an error, or in an exchange the other site left or the time was over.\n\
What to do: try again; for an exchange allow more time with --seconds.\n",
    },
    Entry {
        subject: Subject::Fault(Fault::Write),
        meaning: "a device failed while it was written",
        more: "\
Usual causes: a full disk, a pipe whose reader has ended, or in an exchange the other site left or the time was over.\n\
If the answer could not be printed, the change was saved; if the log could not be written, it was not.\n\
What to do: ask `stn records LOG SITE` whether the record is there before you try again.\n",
    },
    Entry {
        subject: Subject::Fault(Fault::Bound),
        meaning: "an input is too long",
        more: "\
A log, a script, the input of a shell or the replies to `send` have at most 16,777,216 bytes.\n\
Usual causes: a file that is not a log or a script, or a shell that was asked very often.\n\
What to do: give the right file; after a shell, begin another one.\n",
    },
    Entry {
        subject: Subject::Fault(Fault::Memory),
        meaning: "memory ran out",
        more: "\
A request for memory was refused; what failed changed nothing.\n\
Usual cause: a limit that was set for the process.\n\
What to do: raise the limit, and try again.\n",
    },
];

/// The entries of all refusals, in the order of their numbers, and then of all faults.
pub fn table() -> &'static [Entry]
    ensures { IsTable result.now }
{
    &ENTRIES
}
