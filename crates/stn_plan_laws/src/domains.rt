//! Laws of domains, each the contract of a function that does nothing.

ghost use Rattle.std.specs.Prelude.{◌≡◌, ◌↔◌, ℕ, false, List, Err};
ghost use Rattle.stn_pddl.specs.{Tree.Names.folded, declared.fault.DomainFault.DomainFault, Faults.is_memory, Domains.domain_of, Causes.IsDomainCause};
ghost use Rattle.stn_plan_laws.specs.Case.{domain_in_small};

/// The law that a text has a fault exactly where it has the cause of that fault.
#[tactic(auto, using(crate::proofs::domains::FromCauses::cause_for, crate::proofs::domains::FromCauses::fault_of))]
pub fn faults_by_cause()
    ensures { (text : List ℕ) (fault : DomainFault) → is_memory fault ≡ false → (domain_of text ≡ Err fault) ↔ IsDomainCause text fault }
{}

/// The law that the case of letters changes only the names: a text in small letters is the domain of the text with its names in
/// small letters, or has the same fault.
#[tactic(auto, using(crate::proofs::domains::SmallDomain::small_domain))]
pub fn small_letters()
    ensures { (text : List ℕ) → domain_of (folded text) ≡ domain_in_small (domain_of text) }
{}
