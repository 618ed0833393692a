//! What all copies of a plan have in common, whether they keep more of it or not.

ghost use Rattle.std.specs.Prelude.{◌≡◌, None, unwrap_or, IsOk, IfOk, IfErr, OnOk, OnErr};
ghost use Rattle.stn_records.specs.Content.{no_content, IsPart};
ghost use Rattle.stn_site.specs.{Held.{Held, next_id}, Calls.{took, Leaves}, Change.{change_call, change_id, change_refusal, IsAgain}, Refusals.take_refusal};

use crate::change::Change;
use crate::faults::ReplicaFault;
use crate::site_plan::SitePlan;
use std::alloc::Allocator;
use stn_records::{Id, Records, Site};
use stn_time::Memory;

/// One site's copy of a plan: a `SitePlan`, or what keeps one and knows more of it, as a replica. Whichever it is, the site's changes
/// are refused for the same causes and leave the same.
pub trait SiteCopy<A: Allocator + Copy>: Drop {
    /// What the site holds.
    ghost held: { Self → Held };

    /// The copy of another site of the same plan that holds nothing yet.
    fn beside(&self, site: Site) -> Result<Self, Memory>
        ensures site { IfOk result (λ copy. (held copy).site ≡ site) }
        ensures source { IfOk result (λ copy. (held copy).source ≡ (held self.now).source) }
        ensures empty { IfOk result (λ copy. (held copy).state ≡ no_content) };

    /// The plan, and what the site holds.
    fn plan(&self) -> &SitePlan<A>
        ensures site { result.now.site ≡ (held self.now).site }
        ensures source { result.now.source ≡ (held self.now).source }
        ensures state { result.now.state ≡ (held self.now).state };

    /// Makes a change, as `SitePlan::change`.
    fn change(&mut self, asked: &Change) -> Result<Id, ReplicaFault>
        ensures leaves { IfOk result (λ id. Leaves (held self.old) (change_call asked.now id) (held self.new)) }
        ensures id { IfOk result (λ id. id ≡ change_id asked.now (next_id (held self.old))) }
        ensures again { IsAgain asked.now (held self.old).state → IsOk result × (self.new ≡ self.old) }
        ensures accepted { OnOk result (change_refusal (held self.old) asked.now ≡ None) }
        ensures fault { IfErr result (λ fault. fault ≡ unwrap_or (change_refusal (held self.old) asked.now) ReplicaFault.Memory) }
        ensures kept { OnErr result (self.new ≡ self.old) };

    /// Takes in all that another site holds, as `SitePlan::take`.
    fn take(&mut self, other: &Records<A>) -> Result<(), ReplicaFault>
        ensures leaves { OnOk result (Leaves (held self.old) (took other.now) (held self.new)) }
        ensures again { IsPart other.now (held self.old).state → IsOk result × (self.new ≡ self.old) }
        ensures accepted { OnOk result (take_refusal (held self.old) other.now ≡ None) }
        ensures fault { IfErr result (λ fault. fault ≡ unwrap_or (take_refusal (held self.old) other.now) ReplicaFault.Memory) }
        ensures kept { OnErr result (self.new ≡ self.old) };
}

impl<A: Allocator + Copy> SiteCopy<A> for SitePlan<A> {
    ghost held = { λ plan. plan };

    fn beside(&self, site: Site) -> Result<SitePlan<A>, Memory>
        ensures site { IfOk result (λ plan. plan.site ≡ site) }
        ensures source { IfOk result (λ plan. plan.source ≡ self.now.source) }
        ensures empty { IfOk result (λ plan. plan.state ≡ no_content) }
    {
        self.beside(site)
    }

    fn plan(&self) -> &SitePlan<A> {
        self
    }

    fn change(&mut self, asked: &Change) -> Result<Id, ReplicaFault> {
        self.change(asked)
    }

    fn take(&mut self, other: &Records<A>) -> Result<(), ReplicaFault> {
        self.take(other)
    }
}
