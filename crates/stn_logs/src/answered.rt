//! A question about a log, and what was answered.

ghost use Rattle.std.specs.Prelude.{◌≡◌, true, IfSome};
ghost use Rattle.stn_command.specs.Query.{seen_query};
ghost use Rattle.stn_logs.specs.Keeping.{asked_query};

use std::alloc::Allocator;
use stn_command::Query;
use stn_questions::Outlook;
use stn_time::Ms;

/// A question whose answer is kept: one that costs searches. What is said of an event, or of chosen steps, is asked anew, and so is a
/// picture.
#[derive(Clone, Copy)]
pub enum AskedBefore {
    /// The report.
    Report,
    /// What is asked of all events from a time on, or of all starts.
    Foresee(Outlook, Ms, bool),
    /// What mends a conflict.
    Repairs,
}

/// A question about a log, and what was answered.
#[derive(Drop)]
pub struct Answered<A: Allocator> {
    pub asked: AskedBefore,
    pub text: Vec<u8, A>,
}

impl AskedBefore {
    /// The question of a query, if its answer is kept.
    pub fn of(query: &Query<'_>) -> Option<AskedBefore>
        ensures { IfSome result (λ asked. asked_query asked ≡ seen_query query.now) }
    {
        match query {
            Query::Report => Some(AskedBefore::Report),
            Query::Foresee(outlook, now, choice) => match choice.steps {
                Some(_) => None,
                None => Some(AskedBefore::Foresee(*outlook, *now, choice.starts)),
            },
            Query::Repairs => Some(AskedBefore::Repairs),
            Query::Check(_) | Query::Ask(_) | Query::Draw(_) => None,
        }
    }

    /// Whether a query asks this.
    pub fn is(&self, query: &Query<'_>) -> bool
        ensures { result ≡ true → asked_query self.now ≡ seen_query query.now }
    {
        match (self, query) {
            (AskedBefore::Report, Query::Report) => true,
            (AskedBefore::Repairs, Query::Repairs) => true,
            (AskedBefore::Foresee(outlook, now, starts), Query::Foresee(other, time, choice)) => {
                *outlook == *other
                    && *now == *time
                    && choice.steps.is_none()
                    && choice.starts == *starts
            }
            _ => false,
        }
    }
}

impl<A: Allocator + Copy> Answered<A> {
    /// A query, and what was answered; none if it is not kept, or there is no memory for it.
    pub fn of(alloc: A, query: &Query<'_>, text: &[u8]) -> Option<Answered<A>>
        ensures { IfSome result (λ answered. (asked_query answered.asked ≡ seen_query query.now) × (answered.text.items ≡ text.now)) }
    {
        let asked = AskedBefore::of(query)?;
        let text = Vec::from_slice(alloc, text).ok()?;
        Some(Answered { asked, text })
    }
}
