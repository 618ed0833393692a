use std::alloc::Global;
use stn_exec::{Counted, Ran, RunFault, run};
use stn_refusing::{Outcome, PieceReader, PieceWriter, Refused, Refusing, count_refused};

// A script, and what a run of it answers and writes where nothing is refused.
#[derive(Drop)]
pub struct Worked<'a> {
    pub script: &'a [u8],
    pub answer: Result<Ran, RunFault>,
    pub text: &'a [u8],
}

// One run: how many bytes a read hands on and a write takes, and the numbers of the request for memory, of the read
// and of the write that are refused; 0 for none.
#[derive(Clone, Copy)]
struct Trial {
    piece: usize,
    memory: u64,
    read: u64,
    write: u64,
}

// Nothing is refused.
const WORKS: Trial = Trial {
    piece: 16,
    memory: 0,
    read: 0,
    write: 0,
};

// What a run answered and wrote, and whether what was to be refused was refused.
#[derive(Drop)]
struct TrialRun {
    answer: Result<Ran, RunFault>,
    text: Vec<u8>,
    refused: bool,
}

fn attempt(alloc: Global, script: &[u8], trial: Trial) -> TrialRun {
    let heap = Refusing::new(alloc, 0);
    let mut input = Counted::new(PieceReader {
        rest: script,
        piece: trial.piece,
        calls: 0,
        fails_at: trial.read,
    });
    let mut output = Counted::new(PieceWriter {
        held: Vec::new(alloc),
        piece: trial.piece,
        calls: 0,
        fails_at: trial.write,
    });
    heap.refuse(trial.memory);
    let answer = run(&heap, &mut input, &mut output);
    let failed = input.failures() + output.failures() > 0;
    TrialRun {
        answer,
        text: output.into_inner().held,
        refused: failed || trial.memory != 0 && !heap.is_waiting(),
    }
}

// Whether the run answered as with memory and devices that work.
fn is_right(worked: &Worked, run: &TrialRun) -> bool {
    run.answer == worked.answer && run.text.as_slice() == worked.text
}

// Whether a run of which a call was refused said so, and wrote no more than the beginning of what it writes else.
fn says(worked: &Worked, run: &TrialRun, fault: RunFault) -> bool {
    run.answer == Err(fault) && worked.text.starts_with(&run.text)
}

// The run that is answered with this fault, where the call of this number is refused.
fn trial_of(fault: RunFault, number: u64) -> Trial {
    match fault {
        RunFault::Memory => Trial {
            memory: number,
            ..WORKS
        },
        RunFault::Read => Trial {
            read: number,
            ..WORKS
        },
        RunFault::Write => Trial {
            write: number,
            ..WORKS
        },
        RunFault::Bound => WORKS,
    }
}

// What comes of the run, of which a call that is answered with this fault may have been refused. A request for memory that is made in
// advance may be refused without harm: then all is as ever.
fn outcome_of(worked: &Worked, run: &TrialRun, fault: RunFault) -> Outcome {
    let right = is_right(worked, run);
    let answered = says(worked, run, fault) || fault == RunFault::Memory && right;
    Outcome::of(run.refused, if run.refused { answered } else { right })
}

// How many calls that are answered with this fault were refused in turn, until none was left and the script was run as ever; none
// where one is not answered so.
fn refused_with(alloc: Global, worked: &Worked, fault: RunFault) -> Option<u64> {
    count_refused(|number| {
        let run = attempt(alloc, worked.script, trial_of(fault, number));
        outcome_of(worked, &run, fault)
    })
}

/// How many requests for memory of a script were refused in turn, each of which was answered with the fault and left the beginning of
/// the output. None where one was not.
pub fn sweep_requests(alloc: Global, worked: &Worked) -> Option<u64> {
    refused_with(alloc, worked, RunFault::Memory)
}

/// The refused calls of a script: each request for memory, and each read and each write of 16 bytes, is answered with its fault, and
/// leaves the beginning of the output. None where one is not, or the script has another output in pieces of one byte.
pub fn sweep(alloc: Global, worked: &Worked) -> Option<Refused> {
    let whole = Trial { piece: 1, ..WORKS };
    if !is_right(worked, &attempt(alloc, worked.script, whole)) {
        return None;
    }
    Some(Refused {
        requests: sweep_requests(alloc, worked)?,
        reads: refused_with(alloc, worked, RunFault::Read)?,
        writes: refused_with(alloc, worked, RunFault::Write)?,
    })
}
