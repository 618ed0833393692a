//! A replica as one of the copies of a plan.

ghost use Rattle.std.specs.Prelude.{◌≡◌, IfOk};
ghost use Rattle.stn_records.specs.Content.{no_content};

use crate::replica::Replica;
use std::alloc::Allocator;
use stn_records::{Id, Records, Site};
use stn_site::{Change, ReplicaFault, SiteCopy, SitePlan};
use stn_time::Memory;

impl<A: Allocator + Copy> SiteCopy<A> for Replica<A> {
    ghost held = { λ replica. replica };

    fn beside(&self, site: Site) -> Result<Replica<A>, Memory>
        ensures site { IfOk result (λ replica. replica.site ≡ site) }
        ensures source { IfOk result (λ replica. replica.source ≡ self.now.source) }
        ensures empty { IfOk result (λ replica. replica.state ≡ no_content) }
    {
        self.beside(site)
    }

    fn plan(&self) -> &SitePlan<A> {
        self.plan()
    }

    fn change(&mut self, asked: &Change) -> Result<Id, ReplicaFault> {
        self.change(asked)
    }

    fn take(&mut self, other: &Records<A>) -> Result<(), ReplicaFault> {
        self.take(other)
    }
}
