// How often each case came.
use crate::case::Case;
use std::io;

#[derive(Clone, Copy)]
pub struct Tally {
    read: u64,
    old: u64,
    unfinished: u64,
    broken: u64,
    refused: [u64; 256],
}

impl Tally {
    pub fn count(&mut self, case: Case) {
        match case {
            Case::Read => self.read = self.read.saturating_add(1),
            Case::Old => self.old = self.old.saturating_add(1),
            Case::Unfinished => self.unfinished = self.unfinished.saturating_add(1),
            Case::Broken => self.broken = self.broken.saturating_add(1),
            Case::Refused(code) => {
                let place = usize::from(code);
                self.refused[place] = self.refused[place].saturating_add(1);
            }
        }
    }
}

pub const NONE: Tally = Tally {
    read: 0,
    old: 0,
    unfinished: 0,
    broken: 0,
    refused: [0; 256],
};

fn print_old(rt: &HostRuntime, tally: &Tally) -> io::Result<()> {
    if tally.old > 0 {
        print!(rt; ", {} old", tally.old)?;
    }
    Ok(())
}

pub fn print_tally(rt: &HostRuntime, tally: &Tally) -> io::Result<()> {
    print!(rt;
        "{} read, {} unfinished, {} broken",
        tally.read, tally.unfinished, tally.broken
    )?;
    print_old(rt, tally)?;
    for (code, count) in tally.refused.iter().enumerate() {
        if *count > 0 {
            print!(rt; ", {count} refused {code}")?;
        }
    }
    Ok(())
}
