//! The words of an event's line.
ghost use Rattle.std.specs.Prelude.{◌≡◌, find};
ghost use Rattle.std.specs.Str.{bytes_eq};
ghost use Rattle.nt_report.specs.Words.{event_text, event_word, begun_text, begun_word, reply_text};
ghost use Rattle.nt_report.specs.Words.{reply_word};

use nt_event::ApcKind;
use nt_text::is_word;

/// What an event did.
#[derive(Clone, Copy, PartialEq, Eq, Debug)]
pub(crate) enum EventWord {
    Call,
    Begin,
    Normal,
    End,
    Expire,
    Fire,
    Clean,
    Switch,
    Rewait,
    Flush,
    Gone,
    Free,
    Rest,
}

/// What was begun.
#[derive(Clone, Copy, PartialEq, Eq, Debug)]
pub(crate) enum BegunWord {
    Int,
    Dpc,
    Threaded,
    Apc(ApcKind),
}

/// What was replied.
#[derive(Clone, Copy, PartialEq, Eq, Debug)]
pub(crate) enum ReplyWord {
    Done,
    Yes,
    No,
    Status,
    Blocked,
    Spin,
    Refused,
}

const EVENT_WORDS: [EventWord; 13] = [
    EventWord::Call,
    EventWord::Begin,
    EventWord::Normal,
    EventWord::End,
    EventWord::Expire,
    EventWord::Fire,
    EventWord::Clean,
    EventWord::Switch,
    EventWord::Rewait,
    EventWord::Flush,
    EventWord::Gone,
    EventWord::Free,
    EventWord::Rest,
];

const BEGUN_WORDS: [BegunWord; 6] = [
    BegunWord::Int,
    BegunWord::Dpc,
    BegunWord::Threaded,
    BegunWord::Apc(ApcKind::Special),
    BegunWord::Apc(ApcKind::Normal),
    BegunWord::Apc(ApcKind::User),
];

const REPLY_WORDS: [ReplyWord; 7] = [
    ReplyWord::Done,
    ReplyWord::Yes,
    ReplyWord::No,
    ReplyWord::Status,
    ReplyWord::Blocked,
    ReplyWord::Spin,
    ReplyWord::Refused,
];

impl EventWord {
    /// The word as it is written.
    fn text(self) -> &'static [u8]
        ensures { result.now ≡ event_text self }
    {
        match self {
            EventWord::Call => b"call",
            EventWord::Begin => b"begin",
            EventWord::Normal => b"normal",
            EventWord::End => b"end",
            EventWord::Expire => b"expire",
            EventWord::Fire => b"fire",
            EventWord::Clean => b"clean",
            EventWord::Switch => b"switch",
            EventWord::Rewait => b"rewait",
            EventWord::Flush => b"flush",
            EventWord::Gone => b"gone",
            EventWord::Free => b"free",
            EventWord::Rest => b"rest",
        }
    }
}

fn search_event(words: &[EventWord], field: &[u8]) -> Option<EventWord>
    ensures { result ≡ find (λ w. bytes_eq field.now (event_text w)) words.now }
{
    words
        .iter()
        .copied()
        .find(|word| is_word(field, word.text()))
}

/// What a field says that an event did.
#[tactic(auto, unfolding(crate::specs::Words::event_word))]
pub(crate) fn event_word(field: &[u8]) -> Option<EventWord>
    ensures { result ≡ event_word field.now }
{
    search_event(&EVENT_WORDS, field)
}

impl BegunWord {
    /// The word as it is written.
    fn text(self) -> &'static [u8]
        ensures { result.now ≡ begun_text self }
    {
        match self {
            BegunWord::Int => b"int",
            BegunWord::Dpc => b"dpc",
            BegunWord::Threaded => b"threaded",
            BegunWord::Apc(ApcKind::Special) => b"special",
            BegunWord::Apc(ApcKind::Normal) => b"normal",
            BegunWord::Apc(ApcKind::User) => b"user",
        }
    }
}

fn search_begun(words: &[BegunWord], field: &[u8]) -> Option<BegunWord>
    ensures { result ≡ find (λ w. bytes_eq field.now (begun_text w)) words.now }
{
    words
        .iter()
        .copied()
        .find(|word| is_word(field, word.text()))
}

/// What a field says that was begun.
#[tactic(auto, unfolding(crate::specs::Words::begun_word))]
pub(crate) fn begun_word(field: &[u8]) -> Option<BegunWord>
    ensures { result ≡ begun_word field.now }
{
    search_begun(&BEGUN_WORDS, field)
}

impl ReplyWord {
    /// The word as it is written.
    fn text(self) -> &'static [u8]
        ensures { result.now ≡ reply_text self }
    {
        match self {
            ReplyWord::Done => b"done",
            ReplyWord::Yes => b"yes",
            ReplyWord::No => b"no",
            ReplyWord::Status => b"status",
            ReplyWord::Blocked => b"blocked",
            ReplyWord::Spin => b"spin",
            ReplyWord::Refused => b"refused",
        }
    }
}

fn search_reply(words: &[ReplyWord], field: &[u8]) -> Option<ReplyWord>
    ensures { result ≡ find (λ w. bytes_eq field.now (reply_text w)) words.now }
{
    words
        .iter()
        .copied()
        .find(|word| is_word(field, word.text()))
}

/// What a field says that was replied.
#[tactic(auto, unfolding(crate::specs::Words::reply_word))]
pub(crate) fn reply_word(field: &[u8]) -> Option<ReplyWord>
    ensures { result ≡ reply_word field.now }
{
    search_reply(&REPLY_WORDS, field)
}
