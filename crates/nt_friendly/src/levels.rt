//! Names of levels, and the places of a line where a level stands.
ghost use Rattle.std.specs.Prelude.{◌≡◌};
ghost use Rattle.nt_friendly.specs.declared.levels.Next.TheVariants.{Rest};
ghost use Rattle.nt_friendly.specs.Levels.{after, behind_first, behind_keyword, behind_verb};
ghost use Rattle.nt_friendly.specs.Levels.{behind_word, is_device, is_dirql, is_left_out, is_level};
ghost use Rattle.nt_friendly.specs.Levels.{is_naming, level_text, written};

use nt_line::{Keyword, Verb, keyword_of};
use nt_text::{is_word, number};

/// What stands next in a line.
#[derive(Clone, Copy, PartialEq, Eq, Debug)]
pub(crate) enum Next {
    /// A word of an expectation.
    Word,
    /// A name or another field that is no word, and then a word.
    Name,
    /// A level, and then a word.
    Bound,
    /// The word of a command.
    Verb,
    /// A processor, and then a level of a command or of an interrupt routine.
    Cpu,
    /// A level of a command or of an interrupt routine.
    Level,
    /// Fields without a level, up to `->` where it comes, and then a word.
    Rest,
}

/// The number of a level that has a name; any other field stays as it is.
fn level_text(field: &[u8]) -> &[u8]
    ensures { result.now ≡ level_text field.now }
{
    if is_word(field, b"PASSIVE") {
        return b"0";
    }
    if is_word(field, b"APC") {
        return b"1";
    }
    if is_word(field, b"DISPATCH") {
        return b"2";
    }
    if is_word(field, b"SYNCH") {
        return b"12";
    }
    if is_word(field, b"CLOCK") {
        return b"13";
    }
    if is_word(field, b"IPI") {
        return b"14";
    }
    if is_word(field, b"HIGH") {
        return b"15";
    }
    field
}

/// Whether a field is the number of a device's level.
fn is_device(level: Option<u64>) -> bool
    ensures { result ≡ is_device level }
{
    match level {
        Some(level) => level >= 3,
        None => false,
    }
}

/// Whether a field is `DIRQL` before the level of a device.
fn is_dirql(field: &[u8], behind: &[u8]) -> bool
    ensures { result ≡ is_dirql field.now behind.now }
{
    is_word(field, b"DIRQL") && is_device(number(behind, 11))
}

/// What stands behind the word of a command.
fn behind_verb(verb: Verb) -> Next
    ensures { result ≡ behind_verb verb }
{
    match verb {
        Verb::Raise | Verb::Lower => Next::Level,
        Verb::Interrupt => Next::Cpu,
        Verb::Queue
        | Verb::Unqueue
        | Verb::SetImportance
        | Verb::SetTarget
        | Verb::SetTimer
        | Verb::CancelTimer
        | Verb::InsertApc
        | Verb::RemoveApc
        | Verb::EnterCrit
        | Verb::EnterGuard
        | Verb::LeaveCrit
        | Verb::LeaveGuard
        | Verb::StartWait
        | Verb::Delay
        | Verb::Release
        | Verb::Alert
        | Verb::TestAlert
        | Verb::Clock
        | Verb::ToUser
        | Verb::Yield
        | Verb::Acquire
        | Verb::Unlock
        | Verb::Note => Next::Rest,
    }
}

/// What stands behind the first field of a script's line, or behind `call`.
fn behind_keyword(keyword: Option<Keyword>) -> Next
    ensures { result ≡ behind_keyword keyword }
{
    match keyword {
        None => Next::Rest,
        Some(Keyword::Isr) => Next::Cpu,
        Some(Keyword::Call(verb)) => behind_verb(verb),
        Some(
            Keyword::Version
            | Keyword::Cpus
            | Keyword::Depth
            | Keyword::Threaded
            | Keyword::Dpc { .. }
            | Keyword::Timer
            | Keyword::Thread
            | Keyword::Apc(_)
            | Keyword::Spinlock
            | Keyword::Routine
            | Keyword::Exit,
        ) => Next::Rest,
    }
}

/// Whether a field is a word of expectations behind which a name stands.
fn is_naming(field: &[u8]) -> bool
    ensures { result ≡ is_naming field.now }
{
    is_word(field, b"dpc")
        || is_word(field, b"apc")
        || is_word(field, b"thread")
        || is_word(field, b"timer")
        || is_word(field, b"gone")
}

/// What stands behind a word of an expectation.
fn behind_word(field: &[u8]) -> Next
    ensures { result ≡ behind_word field.now }
{
    if is_word(field, b"int") || is_word(field, b"above") {
        return Next::Bound;
    }
    if is_word(field, b"call") {
        return Next::Verb;
    }
    if is_naming(field) {
        return Next::Name;
    }
    Next::Word
}

/// What stands behind the first field of a line.
pub(crate) fn behind_first(field: &[u8]) -> Next
    ensures { result ≡ behind_first field.now }
{
    if is_word(field, b"never") || is_word(field, b"always") {
        return Next::Word;
    }
    behind_keyword(keyword_of(2, field))
}

/// What stands behind the fields of a command: a word behind `->`.
fn behind_rest(field: &[u8]) -> Next
    ensures { result ≡ after Rest field.now }
{
    if is_word(field, b"->") {
        return Next::Word;
    }
    Next::Rest
}

impl Next {
    /// What stands behind a field.
    pub(crate) fn after(self, field: &[u8]) -> Next
        ensures { result ≡ after self field.now }
    {
        match self {
            Next::Word => behind_word(field),
            Next::Name | Next::Bound => Next::Word,
            Next::Verb => behind_keyword(keyword_of(2, field)),
            Next::Cpu => Next::Level,
            Next::Level => Next::Rest,
            Next::Rest => behind_rest(field),
        }
    }

    /// Whether a level stands here.
    fn is_level(self) -> bool
        ensures { result ≡ is_level self }
    {
        match self {
            Next::Bound | Next::Level => true,
            Next::Word | Next::Name | Next::Verb | Next::Cpu | Next::Rest => false,
        }
    }

    /// What is written for a field.
    pub(crate) fn written(self, field: &[u8]) -> &[u8]
        ensures { result.now ≡ written self field.now }
    {
        if self.is_level() {
            return level_text(field);
        }
        field
    }

    /// Whether a field is left out, with this one behind it.
    pub(crate) fn leaves_out(self, field: &[u8], behind: &[u8]) -> bool
        ensures { result ≡ is_left_out self field.now behind.now }
    {
        self.is_level() && is_dirql(field, behind)
    }
}
