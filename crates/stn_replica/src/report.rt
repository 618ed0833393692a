ghost use Rattle.std.specs.Prelude.{◌≡◌, ◌+◌, ◌≤◌, ◌++◌, ℕ, List, length, IfOk, OnOk, OnErr};
ghost use Rattle.stn_net.specs.{Difference.Difference, Matrix.Tightest.IsExact};
ghost use Rattle.stn_site.specs.{Report.{most_report, IsReport}, Windows.AreWindows};

use crate::replica::Replica;
use std::alloc::Allocator;
use stn_matrix::{Matrix, window};
use stn_net::Event;
use stn_time::{Memory, Ms};

impl<A: Allocator + Copy> Replica<A> {
    /// Appends the report: how many steps, events, live records and replaced ids there are; then, where
    /// all bounds have a schedule, the window of each event, and else one cycle of bounds that
    /// contradict each other. It depends on the plan and the state alone, and has at most 65,536
    /// bytes. If memory runs out, it appends nothing.
    pub fn report<B: Allocator>(&self, out: &mut Vec<u8, B>) -> Result<(), Memory>
        ensures reported { OnOk result ((text : List ℕ) × IsReport self.now.source self.now.state text × (out.new.items ≡ out.old.items ++ text)) }
        ensures short { OnOk result (length out.new.items ≤ length out.old.items + most_report) }
        ensures kept { OnErr result (out.new.items ≡ out.old.items) }
    {
        match self.current() {
            Some(matrix) => {
                let windows = windows_of(self.alloc(), matrix)?;
                self.plan().report_with(Some(&windows), out)
            }
            None => self.plan().report_with(None, out),
        }
    }
}

// The windows of the origin and of the matrix's events, in their order.
fn windows_of<A: Allocator + Copy>(alloc: A, matrix: &Matrix<A>) -> Result<Vec<(Ms, Ms), A>, Memory>
    ensures { (bounds : List Difference) → IsExact bounds matrix.now → IfOk result (λ windows. AreWindows bounds matrix.now.events windows.items) }
{
    let mut windows = Vec::new(alloc);
    for number in 0..matrix.events() + 1 {
        let event = Event::new(number).unwrap();
        windows.push(window(matrix, event))?;
    }
    Ok(windows)
}
