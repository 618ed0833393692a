ghost use Rattle.std.specs.Prelude.{◌≡◌};
ghost use Rattle.stn_refusal.specs.Codes.{number_of};

/// Why something is refused, in the order of the numbers.
#[derive(Clone, Copy, Debug, PartialEq, Eq)]
pub enum Code {
    /// A text is no time.
    Malformed,
    /// A time is finer than a millisecond.
    TooFine,
    /// A time lies beyond the horizon.
    OutOfRange,
    /// The plan has no such event.
    NoEvent,
    /// A bound is on an event and itself.
    SameEvent,
    /// The lower side of a bound lies above the upper.
    Crossed,
    /// An event is overdue.
    Overdue,
    /// The text of a domain has too many bytes.
    DomainTooLong,
    /// A domain has a fault of syntax.
    DomainSyntax,
    /// Too many brackets of a domain are open.
    DomainTooDeep,
    /// A domain uses what is not supported.
    DomainUnsupported,
    /// The duration of an action is no time of at least 0.
    DomainNumber,
    /// A domain says something twice.
    DomainTwice,
    /// A term of a domain begins with `?`, and is no parameter of its action.
    DomainVariable,
    /// The text of a plan has too many bytes.
    PlanTooLong,
    /// A line of a plan has not the form of a step.
    PlanSyntax,
    /// A word of a plan should be a time.
    PlanNumber,
    /// A time of a plan is below 0.
    PlanNegative,
    /// The text of a plan has too many steps.
    PlanTooManySteps,
    /// The domain has no such action.
    UnknownAction,
    /// A step has the wrong number of arguments.
    Arity,
    /// The duration of a step is not that of its action.
    DurationDiffers,
    /// A step ends beyond the horizon.
    PastHorizon,
    /// A bare plan has too many steps.
    BareTooManySteps,
    /// An id has two different records, or replaces two different ids.
    Clash,
    /// Too many ids would be known.
    Full,
    /// The id is not known.
    Unknown,
    /// The counter of a site is spent.
    CounterSpent,
    /// A record would replace itself.
    SelfReplace,
    /// A loosened plan has no promise: no times of its starts hold for all durations within their bounds.
    NotRobust,
    /// The body of a frame has a wrong length.
    FrameLength,
    /// There is no frame of this kind.
    FrameKind,
    /// The body of a frame breaks a rule of its kind.
    FrameBody,
    /// A frame of the old version can't be written.
    OldFrame,
    /// Two sites or two logs have different plans.
    OtherPlan,
    /// A frame came where it is not expected.
    Unexpected,
    /// Bytes have not the form of a log.
    LogForm,
    /// Another frame came in place of a reply, or none.
    Reply,
    /// A log is there already.
    LogThere,
    /// A frame of the old version came in a session.
    OldVersion,
    /// A line or a word has the wrong form.
    Line,
    /// There is no such site, or a script has none or more than 64.
    NoSite,
    /// There is no such packet.
    NoPacket,
    /// There are as many packets as there may be.
    TooManyPackets,
}

impl Code {
    /// The number that is printed.
    pub fn number(self) -> u8
        ensures { result ≡ number_of self }
    {
        match self {
            Code::Malformed => 1,
            Code::TooFine => 2,
            Code::OutOfRange => 3,
            Code::NoEvent => 4,
            Code::SameEvent => 5,
            Code::Crossed => 6,
            Code::Overdue => 7,
            Code::DomainTooLong => 10,
            Code::DomainSyntax => 11,
            Code::DomainTooDeep => 12,
            Code::DomainUnsupported => 13,
            Code::DomainNumber => 14,
            Code::DomainTwice => 15,
            Code::DomainVariable => 16,
            Code::PlanTooLong => 20,
            Code::PlanSyntax => 21,
            Code::PlanNumber => 22,
            Code::PlanNegative => 23,
            Code::PlanTooManySteps => 24,
            Code::UnknownAction => 30,
            Code::Arity => 31,
            Code::DurationDiffers => 32,
            Code::PastHorizon => 33,
            Code::BareTooManySteps => 34,
            Code::Clash => 40,
            Code::Full => 41,
            Code::Unknown => 42,
            Code::CounterSpent => 43,
            Code::SelfReplace => 44,
            Code::NotRobust => 45,
            Code::FrameLength => 50,
            Code::FrameKind => 51,
            Code::FrameBody => 52,
            Code::OldFrame => 53,
            Code::OtherPlan => 60,
            Code::Unexpected => 61,
            Code::LogForm => 62,
            Code::Reply => 63,
            Code::LogThere => 64,
            Code::OldVersion => 65,
            Code::Line => 70,
            Code::NoSite => 71,
            Code::NoPacket => 72,
            Code::TooManyPackets => 73,
        }
    }
}
