//! What a shell keeps from one line of its input to the next.

ghost use Rattle.std.specs.Prelude.{◌≡◌, ◌⊎◌, true, None, Some, Ok, IfSome, IfOk, IfErr, MatchResult};
ghost use Rattle.stn_command.specs.Query.{seen_query, IsSaid, IsQueryRefusal};
ghost use Rattle.stn_refusal.specs.Refusals.{out_of_memory};
ghost use Rattle.stn_site.specs.Held.{Held};
ghost use Rattle.stn_logs.specs.Keeping.{IsKeptAnswer, SawLogOf};
ghost use Rattle.stn_store.specs.{Log.{log_held, IsLog}, Store.{Opens, IsMissing, IsUnopened, IsLack}};

use crate::answered::Answered;
use std::alloc::Allocator;
use std::marker::Model;
use stn_command::{Query, say};
use stn_line::SiteLog;
use stn_records::Site;
use stn_refusal::Failure;
use stn_site::SitePlan;
use stn_store::{Look, Store, spell_log};
use stn_time::Memory;

/// What a log said when it was loaded or saved last.
#[derive(Drop)]
pub struct Known<A: Allocator> {
    plan: SitePlan<A>,
    // The bytes that say it, once they were spelled.
    text: Option<Vec<u8, A>>,
    // What was seen of the bytes that said it.
    look: Option<Look<A>>,
    // What was asked last, and answered.
    answered: Option<Answered<A>>,
}

impl<A: Allocator> Model for Known<A> {
    ghost use Rattle.std.specs.Prelude.{IfSome, Ok};
    ghost use Rattle.stn_site.specs.Held.{Held, coded_held};
    ghost use Rattle.stn_store.specs.Log.{log_held, IsLog};
    ghost use Rattle.stn_logs.specs.Keeping.{IsKeptAnswer, SawLogOf};

    ghost Value = { Held };

    ghost coded = { coded_held };

    ghost view = { λ k. k.plan };

    ghost invariant = { λ k. IfSome k.text (λ text. IsLog text.items (Ok (log_held k.plan)))
        × IfSome k.look (SawLogOf k.plan) × IfSome k.answered (IsKeptAnswer k.plan) };
}

impl<A: Allocator + Copy> Known<A> {
    // What a copy of the plan says.
    fn of(plan: SitePlan<A>) -> Known<A>
        ensures { result ≡ plan }
    {
        Known {
            plan,
            text: None,
            look: None,
            answered: None,
        }
    }

    /// The site's copy of the plan.
    pub fn plan(&self) -> &SitePlan<A>
        ensures site { result.now.site ≡ self.now.site }
        ensures source { result.now.source ≡ self.now.source }
        ensures state { result.now.state ≡ self.now.state }
    {
        &self.plan
    }

    // Spells the bytes that say it, where they are not known yet.
    fn spell(&mut self) -> Result<(), Memory>
        ensures { self.new ≡ self.old }
    {
        if self.text.is_none() {
            self.text = Some(spell_log(self.plan.alloc(), &self.plan)?);
        }
        Ok(())
    }

    // The bytes that say it, where they are known, of a copy of this site.
    fn text_at(&self, site: Site) -> Option<&[u8]>
        ensures { IfSome result (λ text. IsLog text.now (Ok (log_held self.now)) × (self.now.site ≡ site)) }
    {
        match &self.text {
            Some(text) if self.plan.site() == site => Some(text),
            _ => None,
        }
    }

    // What a log says, and what is seen of it.
    fn load<S: Store<A>>(store: &S, log: &SiteLog<'_>) -> Result<Known<A>, Failure>
        ensures opened { IfOk result (λ known. Opens (S.entries store.now) log.now.name.now log.now.site known) }
        ensures failed { IfErr result (λ failure. IsUnopened (S.entries store.now) log.now.name.now failure ⊎ IsLack S.fails failure) }
    {
        let seen = store.look(log.name);
        let plan = store.load(log.name, log.site)?;
        let mut known = Known::of(plan);
        known.see(seen);
        Ok(known)
    }

    // Keeps what was seen of the bytes that say it.
    fn see(&mut self, look: Option<Look<A>>)
        requires { IfSome look (SawLogOf self.old) }
        ensures { self.new ≡ self.old }
    {
        self.look = look;
    }

    // What was seen of the bytes that said it, of a copy of this site.
    fn look_at(&self, site: Site) -> Option<&Look<A>>
        ensures { IfSome result (λ look. SawLogOf self.now look.now × (self.now.site ≡ site)) }
    {
        match &self.look {
            Some(look) if self.plan.site() == site => Some(look),
            _ => None,
        }
    }

    // Whether it is what a log says, as far as that shows without reading it.
    fn is_seen<S: Store<A>>(&self, store: &S, log: &SiteLog<'_>) -> bool
        ensures { result ≡ true → Opens (S.entries store.now) log.now.name.now log.now.site self.now }
    {
        match self.look_at(log.site) {
            Some(look) => store.is_seen(log.name, look),
            None => false,
        }
    }

    // The same of the log that is held.
    fn is_seen_held<S: Store<A>>(&self, store: &S, held: &S::Held, site: Site) -> bool
        ensures { result ≡ true → Opens (S.entries store.now) (S.held_name held.now) site self.now }
    {
        match self.look_at(site) {
            Some(look) => store.is_seen_held(held, look),
            None => false,
        }
    }

    // Whether it is what a log says, as far as its bytes are those that were spelled.
    fn has_bytes_of<S: Store<A>>(&mut self, store: &S, log: &SiteLog<'_>) -> Result<bool, Failure>
        ensures same { IfOk result (λ same. same ≡ true → Opens (S.entries store.now) log.now.name.now log.now.site self.new) }
        ensures failed { IfErr result (λ failure. IsMissing (S.entries store.now) log.now.name.now failure ⊎ IsLack S.fails failure) }
    {
        self.spell()?;
        match self.text_at(log.site) {
            Some(text) => store.has(log.name, text),
            None => Ok(false),
        }
    }

    // Whether it is what a log says. What is seen of the log is kept, so that it need not be read again.
    fn is_of<S: Store<A>>(&mut self, store: &S, log: &SiteLog<'_>) -> Result<bool, Failure>
        ensures same { IfOk result (λ same. same ≡ true → Opens (S.entries store.now) log.now.name.now log.now.site self.new) }
        ensures failed { IfErr result (λ failure. IsMissing (S.entries store.now) log.now.name.now failure ⊎ IsLack S.fails failure) }
    {
        if self.is_seen(store, log) {
            return Ok(true);
        }
        let seen = store.look(log.name);
        if self.has_bytes_of(store, log)? {
            self.see(seen);
            Ok(true)
        } else {
            Ok(false)
        }
    }

    // Whether it is what the log that is held says.
    fn is_held<S: Store<A>>(
        &mut self,
        store: &S,
        held: &S::Held,
        site: Site,
    ) -> Result<bool, Failure>
        ensures same { IfOk result (λ same. same ≡ true → Opens (S.entries store.now) (S.held_name held.now) site self.new) }
        ensures failed { IfErr result (λ failure. IsMissing (S.entries store.now) (S.held_name held.now) failure ⊎ IsLack S.fails failure) }
    {
        if self.is_seen_held(store, held, site) {
            return Ok(true);
        }
        self.spell()?;
        match self.text_at(site) {
            Some(text) => store.has_held(held, text),
            None => Ok(false),
        }
    }

    // What was answered to a query, if it was asked last.
    fn answer_to(&self, query: &Query<'_>) -> Option<&[u8]>
        ensures { IfSome result (λ text. IsSaid (seen_query query.now) self.now text.now × IsQueryRefusal (seen_query query.now) self.now None) }
    {
        match &self.answered {
            Some(answered) if answered.asked.is(query) => Some(&answered.text),
            _ => None,
        }
    }

    // What is said to a query. The answer is kept, if there is memory for it.
    fn say(&mut self, query: &Query<'_>) -> Result<Vec<u8, A>, Failure>
        ensures held { self.new ≡ self.old }
        ensures said { MatchResult result
            (λ text. IsSaid (seen_query query.now) self.old text.items × IsQueryRefusal (seen_query query.now) self.old None)
            (λ failure. (failure ≡ out_of_memory) ⊎ IsQueryRefusal (seen_query query.now) self.old (Some failure)) }
    {
        let alloc = self.plan.alloc();
        if let Some(text) = self.answer_to(query) {
            return Ok(Vec::from_slice(alloc, text)?);
        }
        match self.say_anew(query) {
            Ok(text) => {
                let answered = Answered::of(alloc, query, &text);
                self.remember(answered);
                Ok(text)
            }
            Err(failure) => Err(failure),
        }
    }

    // What is said to a query, worked out.
    fn say_anew(&self, query: &Query<'_>) -> Result<Vec<u8, A>, Failure>
        ensures { MatchResult result
            (λ text. IsSaid (seen_query query.now) self.now text.items × IsQueryRefusal (seen_query query.now) self.now None)
            (λ failure. (failure ≡ out_of_memory) ⊎ IsQueryRefusal (seen_query query.now) self.now (Some failure)) }
    {
        say(self.plan(), query)
    }

    // Keeps an answer in place of the last one.
    fn remember(&mut self, answered: Option<Answered<A>>)
        requires { IfSome answered (IsKeptAnswer self.old) }
        ensures { self.new ≡ self.old }
    {
        self.answered = answered;
    }
}

/// What a shell knows of its log, if anything. It saves work alone: what is said is said of the log as it is.
#[derive(Drop)]
pub struct Kept<A: Allocator> {
    known: Option<Known<A>>,
}

impl<A: Allocator + Copy> Kept<A> {
    /// Nothing is known yet.
    pub fn nothing() -> Kept<A> {
        Kept { known: None }
    }

    /// What a log says, which is loaded only where its bytes are not those that say what is known. It has to be kept again.
    pub fn caught_up<S: Store<A>>(
        &mut self,
        store: &S,
        log: &SiteLog<'_>,
    ) -> Result<Known<A>, Failure>
        ensures opened { IfOk result (λ known. Opens (S.entries store.now) log.now.name.now log.now.site known) }
        ensures failed { IfErr result (λ failure. IsUnopened (S.entries store.now) log.now.name.now failure ⊎ IsLack S.fails failure) }
    {
        match self.known.take() {
            Some(mut known) => {
                if known.is_of(store, log)? {
                    return Ok(known);
                }
                drop(known);
                Known::load(store, log)
            }
            None => Ok(Known::of(store.load(log.name, log.site)?)),
        }
    }

    /// A site's copy of a plan by the log that is held: a copy of what is known, or loaded where the bytes are not those that say this.
    pub(crate) fn load_held<S: Store<A>>(
        &mut self,
        store: &S,
        held: &S::Held,
        site: Site,
    ) -> Result<SitePlan<A>, Failure>
        ensures opened { IfOk result (λ plan. Opens (S.entries store.now) (S.held_name held.now) site plan) }
        ensures failed { IfErr result (λ failure. IsUnopened (S.entries store.now) (S.held_name held.now) failure ⊎ IsLack S.fails failure) }
    {
        if let Some(known) = &mut self.known {
            if known.is_held(store, held, site)? {
                return Ok(known.plan().copy()?);
            }
        }
        store.load_held(held, site)
    }

    /// Keeps what is known.
    pub fn keep(&mut self, known: Known<A>) {
        drop(self.known.replace(known));
    }

    /// Keeps what was saved, and the bytes that say it.
    pub(crate) fn learn(&mut self, plan: SitePlan<A>, text: Vec<u8, A>)
        requires { IsLog text.items (Ok (log_held plan)) }
    {
        self.keep(Known {
            plan,
            text: Some(text),
            look: None,
            answered: None,
        });
    }

    /// What is said to a query about what is known, which is kept.
    ///
    /// Refused as `say` refuses it.
    pub(crate) fn say(&mut self, known: Known<A>, query: &Query<'_>) -> Result<Vec<u8, A>, Failure>
        ensures { MatchResult result
            (λ text. IsSaid (seen_query query.now) known text.items × IsQueryRefusal (seen_query query.now) known None)
            (λ failure. (failure ≡ out_of_memory) ⊎ IsQueryRefusal (seen_query query.now) known (Some failure)) }
    {
        let mut known = known;
        let said = known.say(query);
        self.keep(known);
        said
    }
}

/// Finds that a log can be opened, and keeps what it says.
pub fn find_log<S: Store<A>, A: Allocator + Copy>(
    store: &S,
    kept: &mut Kept<A>,
    log: &SiteLog<'_>,
) -> Result<(), Failure>
    ensures { MatchResult result (λ _. (found : Held) × Opens (S.entries store.now) log.now.name.now log.now.site found)
        (λ failure. IsUnopened (S.entries store.now) log.now.name.now failure ⊎ IsLack S.fails failure) }
{
    let known = Known::load(store, log)?;
    kept.keep(known);
    Ok(())
}
