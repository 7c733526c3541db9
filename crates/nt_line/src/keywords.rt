//! The keywords that begin a line, how many fields follow each, and where each may stand.
ghost use Rattle.std.specs.Prelude.{◌≡◌, ◌∷◌, [], ℕ, false, filter, find, IfSome, None};
ghost use Rattle.std.specs.List.{list_any};
ghost use Rattle.std.specs.Str.{bytes_eq};
ghost use Rattle.nt_line.specs.declared.keywords.TheConstants.{KEYWORDS};
ghost use Rattle.nt_text.specs.Lines.{fields, first};
ghost use Rattle.nt_line.specs.Letters.{begins_with, declares_with};
ghost use Rattle.nt_line.specs.Keywords.{verb_text, verb_arity, verb_since, text_of, word_of};
ghost use Rattle.nt_line.specs.Keywords.{keyword_of, arity, since, declaring, order, earliest};
ghost use Rattle.nt_line.specs.Keywords.{latest, stands};

use crate::names::Kind;
use nt_event::ApcKind;
use nt_text::is_word;

/// The keyword of a command.
#[derive(Clone, Copy, PartialEq, Eq, Debug)]
pub enum Verb {
    Raise,
    Lower,
    Queue,
    Unqueue,
    SetImportance,
    SetTarget,
    SetTimer,
    CancelTimer,
    InsertApc,
    RemoveApc,
    EnterCrit,
    EnterGuard,
    LeaveCrit,
    LeaveGuard,
    StartWait,
    Delay,
    Release,
    Alert,
    TestAlert,
    Interrupt,
    Clock,
    ToUser,
    Yield,
    Acquire,
    Unlock,
    Note,
}

/// The keyword that begins a line.
#[derive(Clone, Copy, PartialEq, Eq, Debug)]
pub enum Keyword {
    /// `version`.
    Version,
    /// `cpus`.
    Cpus,
    /// `depth`.
    Depth,
    /// `threaded`.
    Threaded,
    /// `isr`.
    Isr,
    /// `dpc`, or `tdpc` for a threaded one.
    Dpc { threaded: bool },
    /// `timer`.
    Timer,
    /// `thread`.
    Thread,
    /// `special`, `normal` or `user`.
    Apc(ApcKind),
    /// `spinlock`.
    Spinlock,
    /// `routine`.
    Routine,
    /// `exit`.
    Exit,
    /// The keyword of a command.
    Call(Verb),
}

/// What was read last.
#[derive(Clone, Copy, PartialEq, Eq, Debug)]
pub enum Place {
    /// Nothing, in a text of version 2.
    Start,
    /// The line `version`; nothing, in a text of version 1, which has no such line.
    HasVersion,
    /// The line `cpus`.
    HasCpus,
    /// The line `depth`.
    HasDepth,
    /// The line `threaded`.
    HasThreaded,
    /// A line `isr`.
    InIsrs,
    /// A line `dpc` or `tdpc`.
    InDpcs,
    /// A line `timer`.
    InTimers,
    /// A line `thread`.
    InThreads,
    /// A line `special`, `normal` or `user`.
    InApcs,
    /// A line `spinlock`.
    InLocks,
    /// A line `exit`.
    InRoutines,
    /// A line `routine` or a command.
    InRoutine,
}

/// Every keyword.
pub const KEYWORDS: [Keyword; 41] = [
    Keyword::Version,
    Keyword::Cpus,
    Keyword::Depth,
    Keyword::Threaded,
    Keyword::Isr,
    Keyword::Dpc { threaded: false },
    Keyword::Dpc { threaded: true },
    Keyword::Timer,
    Keyword::Thread,
    Keyword::Apc(ApcKind::Special),
    Keyword::Apc(ApcKind::Normal),
    Keyword::Apc(ApcKind::User),
    Keyword::Spinlock,
    Keyword::Routine,
    Keyword::Exit,
    Keyword::Call(Verb::Raise),
    Keyword::Call(Verb::Lower),
    Keyword::Call(Verb::Queue),
    Keyword::Call(Verb::Unqueue),
    Keyword::Call(Verb::SetImportance),
    Keyword::Call(Verb::SetTarget),
    Keyword::Call(Verb::SetTimer),
    Keyword::Call(Verb::CancelTimer),
    Keyword::Call(Verb::InsertApc),
    Keyword::Call(Verb::RemoveApc),
    Keyword::Call(Verb::EnterCrit),
    Keyword::Call(Verb::EnterGuard),
    Keyword::Call(Verb::LeaveCrit),
    Keyword::Call(Verb::LeaveGuard),
    Keyword::Call(Verb::StartWait),
    Keyword::Call(Verb::Delay),
    Keyword::Call(Verb::Release),
    Keyword::Call(Verb::Alert),
    Keyword::Call(Verb::TestAlert),
    Keyword::Call(Verb::Interrupt),
    Keyword::Call(Verb::Clock),
    Keyword::Call(Verb::ToUser),
    Keyword::Call(Verb::Yield),
    Keyword::Call(Verb::Acquire),
    Keyword::Call(Verb::Unlock),
    Keyword::Call(Verb::Note),
];

impl Verb {
    /// The keyword as it is written.
    #[inline(always)]
    pub fn text(self) -> &'static [u8]
        ensures { result.now ≡ verb_text self }
    {
        match self {
            Verb::Raise => b"raise",
            Verb::Lower => b"lower",
            Verb::Queue => b"queue",
            Verb::Unqueue => b"unqueue",
            Verb::SetImportance => b"importance",
            Verb::SetTarget => b"target",
            Verb::SetTimer => b"settimer",
            Verb::CancelTimer => b"canceltimer",
            Verb::InsertApc => b"apc",
            Verb::RemoveApc => b"unapc",
            Verb::EnterCrit => b"entercrit",
            Verb::EnterGuard => b"enterguard",
            Verb::LeaveCrit => b"leavecrit",
            Verb::LeaveGuard => b"leaveguard",
            Verb::StartWait => b"wait",
            Verb::Delay => b"delay",
            Verb::Release => b"release",
            Verb::Alert => b"alert",
            Verb::TestAlert => b"testalert",
            Verb::Interrupt => b"interrupt",
            Verb::Clock => b"clock",
            Verb::ToUser => b"touser",
            Verb::Yield => b"yield",
            Verb::Acquire => b"acquire",
            Verb::Unlock => b"unlock",
            Verb::Note => b"note",
        }
    }

    /// How many fields follow.
    pub fn arity(self) -> usize
        ensures { result ≡ verb_arity self }
    {
        match self {
            Verb::EnterCrit
            | Verb::EnterGuard
            | Verb::LeaveCrit
            | Verb::LeaveGuard
            | Verb::ToUser
            | Verb::Yield => 0,
            Verb::Raise
            | Verb::Lower
            | Verb::Queue
            | Verb::Unqueue
            | Verb::CancelTimer
            | Verb::InsertApc
            | Verb::RemoveApc
            | Verb::Release
            | Verb::TestAlert
            | Verb::Clock
            | Verb::Acquire
            | Verb::Unlock
            | Verb::Note => 1,
            Verb::SetImportance
            | Verb::SetTarget
            | Verb::StartWait
            | Verb::Alert
            | Verb::Interrupt => 2,
            Verb::SetTimer | Verb::Delay => 3,
        }
    }

    /// The first version of scripts that has the keyword.
    fn since(self) -> u8
        ensures { result ≡ verb_since self }
    {
        match self {
            Verb::Acquire | Verb::Unlock => 2,
            Verb::Raise
            | Verb::Lower
            | Verb::Queue
            | Verb::Unqueue
            | Verb::SetImportance
            | Verb::SetTarget
            | Verb::SetTimer
            | Verb::CancelTimer
            | Verb::InsertApc
            | Verb::RemoveApc
            | Verb::EnterCrit
            | Verb::EnterGuard
            | Verb::LeaveCrit
            | Verb::LeaveGuard
            | Verb::StartWait
            | Verb::Delay
            | Verb::Release
            | Verb::Alert
            | Verb::TestAlert
            | Verb::Interrupt
            | Verb::Clock
            | Verb::ToUser
            | Verb::Yield
            | Verb::Note => 1,
        }
    }
}

impl Place {
    /// Its number in the order of a script's parts.
    fn order(self) -> u8
        ensures { result ≡ order self }
    {
        match self {
            Place::Start => 0,
            Place::HasVersion => 1,
            Place::HasCpus => 2,
            Place::HasDepth => 3,
            Place::HasThreaded => 4,
            Place::InIsrs => 5,
            Place::InDpcs => 6,
            Place::InTimers => 7,
            Place::InThreads => 8,
            Place::InApcs => 9,
            Place::InLocks => 10,
            Place::InRoutines => 11,
            Place::InRoutine => 12,
        }
    }
}

impl Keyword {
    /// The keyword as it is written.
    #[inline(always)]
    pub fn text(self) -> &'static [u8]
        ensures { result.now ≡ text_of self }
    {
        match self {
            Keyword::Version => b"version",
            Keyword::Cpus => b"cpus",
            Keyword::Depth => b"depth",
            Keyword::Threaded => b"threaded",
            Keyword::Isr => b"isr",
            Keyword::Dpc { threaded: false } => b"dpc",
            Keyword::Dpc { threaded: true } => b"tdpc",
            Keyword::Timer => b"timer",
            Keyword::Thread => b"thread",
            Keyword::Apc(ApcKind::Special) => b"special",
            Keyword::Apc(ApcKind::Normal) => b"normal",
            Keyword::Apc(ApcKind::User) => b"user",
            Keyword::Spinlock => b"spinlock",
            Keyword::Routine => b"routine",
            Keyword::Exit => b"exit",
            Keyword::Call(verb) => verb.text(),
        }
    }

    /// How many fields follow.
    pub fn arity(self) -> usize
        ensures { result ≡ arity self }
    {
        match self {
            Keyword::Exit => 0,
            Keyword::Version
            | Keyword::Cpus
            | Keyword::Depth
            | Keyword::Threaded
            | Keyword::Spinlock
            | Keyword::Routine => 1,
            Keyword::Dpc { .. } | Keyword::Timer => 2,
            Keyword::Isr | Keyword::Thread | Keyword::Apc(ApcKind::Special) => 3,
            Keyword::Apc(ApcKind::Normal) => 4,
            Keyword::Apc(ApcKind::User) => 5,
            Keyword::Call(verb) => verb.arity(),
        }
    }

    /// Of what kind a thing is that such a line declares.
    pub fn declares(self) -> Option<Kind>
        ensures { result ≡ declaring self }
    {
        match self {
            Keyword::Dpc { .. } => Some(Kind::Dpc),
            Keyword::Timer => Some(Kind::Timer),
            Keyword::Thread => Some(Kind::Thread),
            Keyword::Apc(_) => Some(Kind::Apc),
            Keyword::Spinlock => Some(Kind::Lock),
            Keyword::Routine => Some(Kind::Routine),
            Keyword::Version
            | Keyword::Cpus
            | Keyword::Depth
            | Keyword::Threaded
            | Keyword::Isr
            | Keyword::Exit
            | Keyword::Call(_) => None,
        }
    }

    /// The first version of scripts that has the keyword.
    fn since(self) -> u8
        ensures { result ≡ since self }
    {
        match self {
            Keyword::Version | Keyword::Spinlock => 2,
            Keyword::Cpus
            | Keyword::Depth
            | Keyword::Threaded
            | Keyword::Isr
            | Keyword::Dpc { .. }
            | Keyword::Timer
            | Keyword::Thread
            | Keyword::Apc(_)
            | Keyword::Routine
            | Keyword::Exit => 1,
            Keyword::Call(verb) => verb.since(),
        }
    }

    /// The first place behind which such a line may stand.
    fn earliest(self) -> u8
        ensures { result ≡ earliest self }
    {
        match self {
            Keyword::Version => 0,
            Keyword::Cpus => 1,
            Keyword::Depth
            | Keyword::Threaded
            | Keyword::Isr
            | Keyword::Dpc { .. }
            | Keyword::Timer
            | Keyword::Thread
            | Keyword::Apc(_)
            | Keyword::Spinlock
            | Keyword::Routine => 2,
            Keyword::Exit | Keyword::Call(_) => 12,
        }
    }

    /// The last place behind which such a line may stand.
    fn latest(self) -> u8
        ensures { result ≡ latest self }
    {
        match self {
            Keyword::Version => 0,
            Keyword::Cpus => 1,
            Keyword::Depth => 2,
            Keyword::Threaded => 3,
            Keyword::Isr => 5,
            Keyword::Dpc { .. } => 6,
            Keyword::Timer => 7,
            Keyword::Thread => 8,
            Keyword::Apc(_) => 9,
            Keyword::Spinlock => 10,
            Keyword::Routine => 11,
            Keyword::Exit | Keyword::Call(_) => 12,
        }
    }

    /// Whether such a line may stand behind what was read last.
    pub fn stands(self, place: Place) -> bool
        ensures { result ≡ stands place self }
    {
        self.earliest() <= place.order() && place.order() <= self.latest()
    }
}

/// The keyword, where the field is it.
#[inline(always)]
fn only(field: &[u8], a: Keyword) -> Option<Keyword>
    ensures { result ≡ find (λ w. bytes_eq field.now (text_of w)) (a ∷ []) }
{
    if is_word(field, a.text()) {
        Some(a)
    } else {
        None
    }
}

/// The first of two keywords that the field is.
#[inline(always)]
fn of_two(field: &[u8], a: Keyword, b: Keyword) -> Option<Keyword>
    ensures { result ≡ find (λ w. bytes_eq field.now (text_of w)) (a ∷ b ∷ []) }
{
    if is_word(field, a.text()) {
        Some(a)
    } else {
        only(field, b)
    }
}

/// The first of three keywords that the field is.
#[inline(always)]
fn of_three(field: &[u8], a: Keyword, b: Keyword, c: Keyword) -> Option<Keyword>
    ensures { result ≡ find (λ w. bytes_eq field.now (text_of w)) (a ∷ b ∷ c ∷ []) }
{
    if is_word(field, a.text()) {
        Some(a)
    } else {
        of_two(field, b, c)
    }
}

/// The first of four keywords that the field is.
#[inline(always)]
fn of_four(field: &[u8], a: Keyword, b: Keyword, c: Keyword, d: Keyword) -> Option<Keyword>
    ensures { result ≡ find (λ w. bytes_eq field.now (text_of w)) (a ∷ b ∷ c ∷ d ∷ []) }
{
    if is_word(field, a.text()) {
        Some(a)
    } else {
        of_three(field, b, c, d)
    }
}

/// The keyword that a field is, of those that begin with a `t`.
#[inline(always)]
fn beginning_with_t(field: &[u8]) -> Option<Keyword>
    ensures { result
        ≡ find (λ w. bytes_eq field.now (text_of w)) (filter (begins_with 116) KEYWORDS) }
{
    if is_word(field, Keyword::Threaded.text()) {
        return Some(Keyword::Threaded);
    }
    if is_word(field, Keyword::Dpc { threaded: true }.text()) {
        return Some(Keyword::Dpc { threaded: true });
    }
    if is_word(field, Keyword::Timer.text()) {
        return Some(Keyword::Timer);
    }
    of_four(
        field,
        Keyword::Thread,
        Keyword::Call(Verb::SetTarget),
        Keyword::Call(Verb::TestAlert),
        Keyword::Call(Verb::ToUser),
    )
}

/// The keyword that a field is, of those that begin with a letter, in the order of all. The words
/// are known where they are compared, so that each comparison is by its length and its letters.
#[inline(always)]
fn beginning_with(letter: u8, field: &[u8]) -> Option<Keyword>
    ensures { result
        ≡ find (λ w. bytes_eq field.now (text_of w)) (filter (begins_with letter) KEYWORDS) }
{
    match letter {
        b'a' => of_three(
            field,
            Keyword::Call(Verb::InsertApc),
            Keyword::Call(Verb::Alert),
            Keyword::Call(Verb::Acquire),
        ),
        b'c' => of_three(
            field,
            Keyword::Cpus,
            Keyword::Call(Verb::CancelTimer),
            Keyword::Call(Verb::Clock),
        ),
        b'd' => of_three(
            field,
            Keyword::Depth,
            Keyword::Dpc { threaded: false },
            Keyword::Call(Verb::Delay),
        ),
        b'e' => of_three(
            field,
            Keyword::Exit,
            Keyword::Call(Verb::EnterCrit),
            Keyword::Call(Verb::EnterGuard),
        ),
        b'i' => of_three(
            field,
            Keyword::Isr,
            Keyword::Call(Verb::SetImportance),
            Keyword::Call(Verb::Interrupt),
        ),
        b'l' => of_three(
            field,
            Keyword::Call(Verb::Lower),
            Keyword::Call(Verb::LeaveCrit),
            Keyword::Call(Verb::LeaveGuard),
        ),
        b'n' => of_two(
            field,
            Keyword::Apc(ApcKind::Normal),
            Keyword::Call(Verb::Note),
        ),
        b'q' => only(field, Keyword::Call(Verb::Queue)),
        b'r' => of_three(
            field,
            Keyword::Routine,
            Keyword::Call(Verb::Raise),
            Keyword::Call(Verb::Release),
        ),
        b's' => of_three(
            field,
            Keyword::Apc(ApcKind::Special),
            Keyword::Spinlock,
            Keyword::Call(Verb::SetTimer),
        ),
        b't' => beginning_with_t(field),
        b'u' => of_four(
            field,
            Keyword::Apc(ApcKind::User),
            Keyword::Call(Verb::Unqueue),
            Keyword::Call(Verb::RemoveApc),
            Keyword::Call(Verb::Unlock),
        ),
        b'v' => only(field, Keyword::Version),
        b'w' => only(field, Keyword::Call(Verb::StartWait)),
        b'y' => only(field, Keyword::Call(Verb::Yield)),
        _ => None,
    }
}

/// The keyword that a field is, of whatever version. Only those with its first letter are compared
/// with it.
#[tactic(auto, unfolding(crate::specs::Keywords::word_of))]
fn word_of(field: &[u8]) -> Option<Keyword>
    ensures { result ≡ word_of field.now }
{
    match field {
        [letter, ..] => beginning_with(*letter, field),
        [] => None,
    }
}

/// The keyword that a field is in texts of a version: version 1 has none of `version`, `spinlock`,
/// `acquire` and `unlock`.
pub fn keyword_of(version: u8, field: &[u8]) -> Option<Keyword>
    ensures { result ≡ keyword_of version field.now }
{
    match word_of(field) {
        Some(keyword) if keyword.since() <= version => Some(keyword),
        _ => None,
    }
}

/// Whether a keyword of a line that declares has this first letter and this third one.
#[inline(always)]
fn has_declaring_letters(first: u8, third: u8) -> bool
    ensures { result ≡ list_any (declares_with first third) KEYWORDS }
{
    match first {
        b'd' => third == b'c',
        b'n' => third == b'r',
        b'r' => third == b'u',
        b's' => third == b'e' || third == b'i',
        b't' => third == b'p' || third == b'm' || third == b'r',
        b'u' => third == b'e',
        _ => false,
    }
}

/// Whether a line may declare a name, as two letters of its keyword tell: most lines of a script
/// are commands, which need not be cut into fields for that. Where it is false, the line declares
/// none in any version.
#[inline(always)]
pub fn may_declare(line: &[u8]) -> bool
    ensures { result ≡ false → (version : ℕ) →
        IfSome (keyword_of version (first (fields line.now))) (λ w. declaring w ≡ None) }
{
    match line {
        [first, _, third, ..] => has_declaring_letters(*first, *third),
        _ => false,
    }
}
