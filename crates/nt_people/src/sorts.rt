//! What may stand in a field of a line.
use nt_event::ApcKind;
use nt_line::{Keyword, Kind, Verb};
use nt_text::{name, number};

/// What may stand in a field.
#[derive(Clone, Copy, PartialEq, Eq, Debug)]
pub(crate) enum Sort {
    /// The first field of a script's line.
    Keyword,
    /// The first field of a line of expectations.
    Quantifier,
    /// What stands behind `never`.
    Never,
    /// What stands behind `always`.
    Always,
    /// The word of an event.
    Event,
    /// The word of an activity.
    Activity,
    /// `with`.
    With,
    /// `dpc` or `apc`, behind `waits`.
    Waits,
    /// `timer`, behind `expire`.
    Expire,
    /// The keyword of a command, behind `call`.
    Verb,
    /// `->`.
    Arrow,
    /// The word of a reply.
    Reply,
    /// A word between two parts of an expectation.
    Link,
    /// The first field of a schedule's line.
    Turn,
    /// A field of a report's line, as a run writes it.
    Reported,
    /// `on` or `off`.
    OnOff,
    /// `kernel` or `user`.
    Mode,
    /// `plain` or `alertable`.
    Alertable,
    /// An importance.
    Importance,
    /// The version of a script.
    Version,
    /// A count of processors.
    Cpus,
    /// A limit of depth.
    Depth,
    /// A number of 32 bits.
    Number,
    /// A level.
    Level,
    /// A level of an interrupt routine.
    IsrLevel,
    /// A level that a command may request.
    RequestedLevel,
    /// A processor.
    Cpu,
    /// A processor, or `own`.
    Target,
    /// A status in hexadecimal.
    Status,
    /// A turn limit.
    Turns,
    /// A class and its value.
    Seen,
    /// A name that is declared here.
    NewName,
    /// A name of a thing of this kind.
    Name(Kind),
    /// A name of a thing of this kind, or `-`.
    NameOrNone(Kind),
    /// No field may stand here.
    Nothing,
}

/// What stands behind the keyword of a command.
pub(crate) fn behind_verb(verb: Verb) -> &'static [Sort] {
    match verb {
        Verb::Raise | Verb::Lower => &[Sort::Level],
        Verb::Queue | Verb::Unqueue => &[Sort::Name(Kind::Dpc)],
        Verb::SetImportance => &[Sort::Name(Kind::Dpc), Sort::Importance],
        Verb::SetTarget => &[Sort::Name(Kind::Dpc), Sort::Target],
        Verb::SetTimer => &[Sort::Name(Kind::Timer), Sort::Number, Sort::Number],
        Verb::CancelTimer => &[Sort::Name(Kind::Timer)],
        Verb::InsertApc | Verb::RemoveApc => &[Sort::Name(Kind::Apc)],
        Verb::EnterCrit
        | Verb::EnterGuard
        | Verb::LeaveCrit
        | Verb::LeaveGuard
        | Verb::ToUser
        | Verb::Yield => &[],
        Verb::StartWait => &[Sort::Mode, Sort::Alertable],
        Verb::Delay => &[Sort::Mode, Sort::Alertable, Sort::Number],
        Verb::Release => &[Sort::Name(Kind::Thread)],
        Verb::Alert => &[Sort::Name(Kind::Thread), Sort::Mode],
        Verb::TestAlert => &[Sort::Mode],
        Verb::Interrupt => &[Sort::Cpu, Sort::RequestedLevel],
        Verb::Clock | Verb::Note => &[Sort::Number],
        Verb::Acquire | Verb::Unlock => &[Sort::Name(Kind::Lock)],
    }
}

/// What stands behind the first field of a script's line.
pub(crate) fn behind_keyword(keyword: Keyword) -> &'static [Sort] {
    match keyword {
        Keyword::Version => &[Sort::Version],
        Keyword::Cpus => &[Sort::Cpus],
        Keyword::Depth => &[Sort::Depth],
        Keyword::Threaded => &[Sort::OnOff],
        Keyword::Isr => &[Sort::Cpu, Sort::IsrLevel, Sort::Name(Kind::Routine)],
        Keyword::Dpc { .. } => &[Sort::NewName, Sort::Name(Kind::Routine)],
        Keyword::Timer => &[Sort::NewName, Sort::NameOrNone(Kind::Dpc)],
        Keyword::Thread => &[Sort::NewName, Sort::Cpu, Sort::Name(Kind::Routine)],
        Keyword::Apc(kind) => behind_apc(kind),
        Keyword::Spinlock | Keyword::Routine => &[Sort::NewName],
        Keyword::Exit => &[],
        Keyword::Call(verb) => behind_verb(verb),
    }
}

/// What stands behind the word of an APC's kind.
fn behind_apc(kind: ApcKind) -> &'static [Sort] {
    match kind {
        ApcKind::Special => &[
            Sort::NewName,
            Sort::Name(Kind::Thread),
            Sort::Name(Kind::Routine),
        ],
        ApcKind::Normal => &[
            Sort::NewName,
            Sort::Name(Kind::Thread),
            Sort::Name(Kind::Routine),
            Sort::Name(Kind::Routine),
        ],
        ApcKind::User => &[
            Sort::NewName,
            Sort::Name(Kind::Thread),
            Sort::Name(Kind::Routine),
            Sort::Name(Kind::Routine),
            Sort::NameOrNone(Kind::Routine),
        ],
    }
}

/// How many keywords are of no command; they stand before those that are.
const OTHER_KEYWORDS: usize = 16;

/// The keywords of a script's line, and the word that begins what stands behind a script.
static KEYWORDS: [&str; 42] = [
    "expect",
    "version",
    "cpus",
    "depth",
    "threaded",
    "isr",
    "dpc",
    "tdpc",
    "timer",
    "thread",
    "special",
    "normal",
    "user",
    "spinlock",
    "routine",
    "exit",
    "raise",
    "lower",
    "queue",
    "unqueue",
    "importance",
    "target",
    "settimer",
    "canceltimer",
    "apc",
    "unapc",
    "entercrit",
    "enterguard",
    "leavecrit",
    "leaveguard",
    "wait",
    "delay",
    "release",
    "alert",
    "testalert",
    "interrupt",
    "clock",
    "touser",
    "yield",
    "acquire",
    "unlock",
    "note",
];

static QUANTIFIERS: [&str; 4] = ["expect", "never", "always", "done"];

static EVENTS: [&str; 6] = ["note", "refused", "begin", "expire", "gone", "call"];

static BEHIND_ALWAYS: [&str; 7] = ["note", "refused", "begin", "expire", "gone", "call", "ends"];

static BEHIND_NEVER: [&str; 13] = [
    "note", "refused", "begin", "expire", "gone", "call", "waits", "blocked", "spins", "int",
    "dpc", "apc", "thread",
];

static ACTIVITIES: [&str; 4] = ["int", "dpc", "apc", "thread"];

static WITH: [&str; 1] = ["with"];

static WAITS: [&str; 2] = ["dpc", "apc"];

static EXPIRE: [&str; 1] = ["timer"];

static ARROW: [&str; 1] = ["->"];

static REPLIES: [&str; 7] = ["yes", "no", "done", "blocked", "status", "refused", "spin"];

static LINKS: [&str; 5] = ["after", "before", "twice", "above", "on"];

static TURNS: [&str; 5] = ["schedule", "next", "switch", "look", "done"];

static ON_OFF: [&str; 2] = ["on", "off"];

static MODES: [&str; 2] = ["kernel", "user"];

static ALERTABLES: [&str; 2] = ["plain", "alertable"];

static IMPORTANCES: [&str; 4] = ["low", "medium", "mediumhigh", "high"];

/// The words that may stand in a field, where it is one of fixed words.
pub(crate) fn words(sort: Sort) -> &'static [&'static str] {
    match sort {
        Sort::Keyword => &KEYWORDS,
        Sort::Verb => &KEYWORDS[OTHER_KEYWORDS..],
        Sort::Quantifier => &QUANTIFIERS,
        Sort::Never => &BEHIND_NEVER,
        Sort::Always => &BEHIND_ALWAYS,
        Sort::Event => &EVENTS,
        Sort::Activity => &ACTIVITIES,
        Sort::With => &WITH,
        Sort::Waits => &WAITS,
        Sort::Expire => &EXPIRE,
        Sort::Arrow => &ARROW,
        Sort::Reply => &REPLIES,
        Sort::Link => &LINKS,
        Sort::Turn => &TURNS,
        Sort::OnOff => &ON_OFF,
        Sort::Mode => &MODES,
        Sort::Alertable => &ALERTABLES,
        Sort::Importance => &IMPORTANCES,
        Sort::Version
        | Sort::Cpus
        | Sort::Depth
        | Sort::Number
        | Sort::Level
        | Sort::IsrLevel
        | Sort::RequestedLevel
        | Sort::Cpu
        | Sort::Target
        | Sort::Status
        | Sort::Turns
        | Sort::Seen
        | Sort::NewName
        | Sort::Name(_)
        | Sort::NameOrNone(_)
        | Sort::Reported
        | Sort::Nothing => &[],
    }
}

static LEVELS: [&str; 8] = [
    "PASSIVE", "APC", "DISPATCH", "DIRQL", "SYNCH", "CLOCK", "IPI", "HIGH",
];

/// The names that may stand in a field where a level has to.
pub(crate) fn level_names(sort: Sort) -> &'static [&'static str] {
    match sort {
        Sort::Level | Sort::IsrLevel | Sort::RequestedLevel => &LEVELS,
        _ => &[],
    }
}

/// Whether a field is one of the words.
fn is_one_of(words: &[&str], field: &[u8]) -> bool {
    words.iter().any(|word| word.as_bytes() == field)
}

/// Whether a fixed word has to stand in a field, and another one does.
pub(crate) fn is_bad_word(sort: Sort, field: &[u8]) -> bool {
    let words = words(sort);
    !words.is_empty() && !is_one_of(words, field)
}

/// Whether a field is a number from `least` to `most`.
fn is_within(least: u64, most: u64, field: &[u8]) -> bool {
    match number(field, most) {
        Some(n) => least <= n,
        None => false,
    }
}

/// Whether a field is a level that a command may request.
fn is_requested(field: &[u8]) -> bool {
    is_within(3, 11, field) || is_within(14, 14, field)
}

/// Whether a field is a processor below this count.
fn is_cpu(cpus: u64, field: &[u8]) -> bool {
    match number(field, 255) {
        Some(n) => n < cpus,
        None => false,
    }
}

/// Whether a field is of hexadecimal digits in lower case.
fn is_hexadecimal(field: &[u8]) -> bool {
    !field.is_empty()
        && field.len() <= 8
        && field
            .iter()
            .all(|b| b.is_ascii_digit() || (b'a' <= *b && *b <= b'f'))
}

/// Whether a field is a class, `=` and a value.
fn is_seen(field: &[u8]) -> bool {
    match field.iter().position(|b| *b == b'=') {
        Some(end) => is_within(0, 14, &field[..end]) && is_within(1, u64::MAX, &field[end + 1..]),
        None => false,
    }
}

/// Whether a number has to stand in a field, and none of its range does.
pub(crate) fn is_bad_number(sort: Sort, cpus: u64, field: &[u8]) -> bool {
    match sort {
        Sort::Version => !is_within(2, 2, field),
        Sort::Cpus => !is_within(1, u32::MAX as u64, field),
        Sort::Depth => !is_within(0, 256, field),
        Sort::Number => !is_within(0, u32::MAX as u64, field),
        Sort::Level => !is_within(0, 15, field),
        Sort::IsrLevel => !(is_requested(field) || is_within(13, 13, field)),
        Sort::RequestedLevel => !is_requested(field),
        Sort::Cpu => !is_cpu(cpus, field),
        Sort::Target => !(is_one_of(&["own"], field) || is_cpu(cpus, field)),
        Sort::Status => !is_hexadecimal(field),
        Sort::Turns => !is_within(1, 20_000, field),
        Sort::Seen => !is_seen(field),
        Sort::Keyword
        | Sort::Quantifier
        | Sort::Never
        | Sort::Always
        | Sort::Event
        | Sort::Activity
        | Sort::With
        | Sort::Waits
        | Sort::Expire
        | Sort::Verb
        | Sort::Arrow
        | Sort::Reply
        | Sort::Link
        | Sort::Turn
        | Sort::OnOff
        | Sort::Mode
        | Sort::Alertable
        | Sort::Importance
        | Sort::NewName
        | Sort::Name(_)
        | Sort::NameOrNone(_)
        | Sort::Reported
        | Sort::Nothing => false,
    }
}

/// Whether a name has to stand in a field, and none does.
pub(crate) fn is_bad_name(sort: Sort, field: &[u8]) -> bool {
    match used_kind(sort, field) {
        Some(_) => name(field).is_none(),
        None => sort == Sort::NewName && name(field).is_none(),
    }
}

/// The kind of a thing whose name has to stand in a field. None where no name has to.
pub(crate) fn used_kind(sort: Sort, field: &[u8]) -> Option<Kind> {
    match sort {
        Sort::Name(kind) => Some(kind),
        Sort::NameOrNone(kind) if field != b"-".as_slice() => Some(kind),
        _ => None,
    }
}
