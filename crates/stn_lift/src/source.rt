ghost use Rattle.std.specs.Prelude.{◌≡◌, ◌↔◌, IsTrue};
ghost use Rattle.stn_lift.specs.PlanSource.{plan_source};

use std::alloc::Allocator;

/// What a base is made from.
#[derive(Drop)]
pub enum Source<A: Allocator> {
    /// So many steps, with no bounds but the horizon.
    Bare(u16),
    /// The text of a domain and the text of a plan in it.
    Files(Vec<u8, A>, Vec<u8, A>),
}

impl<A: Allocator> Source<A> {
    /// Whether both are the same, byte for byte.
    pub fn same(&self, other: &Source<A>) -> bool
        ensures { IsTrue result ↔ (plan_source self.now ≡ plan_source other.now) }
    {
        match (self, other) {
            (Source::Bare(ours), Source::Bare(theirs)) => ours == theirs,
            (Source::Files(domain, plan), Source::Files(other_domain, other_plan)) => {
                domain.as_slice() == other_domain.as_slice()
                    && plan.as_slice() == other_plan.as_slice()
            }
            _ => false,
        }
    }
}
