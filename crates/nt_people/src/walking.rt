//! A line from left to right: what may stand in each of its fields.
use crate::fault::TextPart;
use crate::sorts::{Sort, behind_keyword, behind_verb, is_bad_word};
use nt_line::{Keyword, Kind, keyword_of};
use nt_text::is_word;

/// What stands behind the fields that a word needs.
#[derive(Clone, Copy, PartialEq, Eq, Debug)]
enum Then {
    /// The first field of a script's line.
    Keyword,
    /// The first field of a line of expectations.
    Quantifier,
    /// The first field of a schedule's line.
    Turn,
    /// The first field of a report's line.
    Reported,
    /// Another field of a report's line.
    Happened,
    /// What is said behind `never`.
    Never,
    /// What is said behind `always`.
    Always,
    /// An event, behind `after` and `before`.
    Event,
    /// An activity, behind `begin`.
    Begun,
    /// `with`.
    With,
    /// An activity, behind `with`.
    Other,
    /// `dpc` or `apc`, behind `waits`.
    Waits,
    /// A command, behind `call`.
    Verb,
    /// `->`.
    Arrow,
    /// A reply.
    Reply,
    /// What stands behind the first event of a `never`.
    Link,
    /// One more class and value of a look.
    Seen,
    /// No field.
    Nothing,
}

/// The fields of a line that are to come.
#[derive(Clone, Copy)]
pub(crate) struct Walk {
    /// What stands in the next fields.
    fields: &'static [Sort],
    /// What stands behind those.
    then: Then,
    /// What stands behind an event.
    behind_event: Then,
}

impl Walk {
    /// A line of this text.
    pub(crate) fn new(part: TextPart) -> Walk {
        let then = match part {
            TextPart::Script => Then::Keyword,
            TextPart::Expectations => Then::Quantifier,
            TextPart::Schedule => Then::Turn,
            TextPart::Report => Then::Reported,
        };
        Walk {
            fields: &[],
            then,
            behind_event: Then::Nothing,
        }
    }

    /// What stands next.
    fn set(&mut self, fields: &'static [Sort], then: Then) {
        self.fields = fields;
        self.then = then;
    }

    /// Takes a field. Answers what may stand in it.
    pub(crate) fn take(&mut self, field: &[u8]) -> Sort {
        match self.fields {
            [sort, rest @ ..] => {
                self.fields = rest;
                *sort
            }
            [] => self.take_word(field),
        }
    }

    /// Takes a field behind those that the word before it needs.
    fn take_word(&mut self, field: &[u8]) -> Sort {
        match self.then {
            Then::Keyword => self.take_keyword(field),
            Then::Quantifier => self.take_quantifier(field),
            Then::Turn => self.take_turn(field),
            Then::Reported => self.take_reported(field),
            Then::Happened => Sort::Reported,
            Then::Never => self.take_never(field),
            Then::Always => self.take_always(field),
            Then::Event => self.take_event(field, Sort::Event),
            Then::Begun => self.take_activity(field, self.behind_event),
            Then::With => {
                self.then = Then::Other;
                Sort::With
            }
            Then::Other => self.take_activity(field, Then::Nothing),
            Then::Waits => self.take_waits(field),
            Then::Verb => self.take_verb(field),
            Then::Arrow => {
                self.then = Then::Reply;
                Sort::Arrow
            }
            Then::Reply => self.take_reply(field),
            Then::Link => self.take_link(field),
            Then::Seen => Sort::Seen,
            Then::Nothing => Sort::Nothing,
        }
    }

    fn take_keyword(&mut self, field: &[u8]) -> Sort {
        match keyword_of(2, field) {
            Some(keyword) => self.set(behind_keyword(keyword), Then::Nothing),
            None => self.then = Then::Nothing,
        }
        Sort::Keyword
    }

    fn take_quantifier(&mut self, field: &[u8]) -> Sort {
        self.then = Then::Nothing;
        if is_word(field, b"never") {
            self.then = Then::Never;
            self.behind_event = Then::Link;
        }
        if is_word(field, b"always") {
            self.then = Then::Always;
        }
        Sort::Quantifier
    }

    fn take_turn(&mut self, field: &[u8]) -> Sort {
        self.then = Then::Nothing;
        if is_word(field, b"schedule") {
            self.fields = &[Sort::Turns];
        }
        if is_word(field, b"next") {
            self.fields = &[Sort::Cpu];
        }
        if is_word(field, b"switch") {
            self.fields = &[Sort::Cpu, Sort::Name(Kind::Thread)];
        }
        if is_word(field, b"look") {
            self.set(&[Sort::Cpu], Then::Seen);
        }
        Sort::Turn
    }

    /// Takes the first field of a report's line, of which the last are those of its schedule.
    fn take_reported(&mut self, field: &[u8]) -> Sort {
        if is_word(field, b"report") {
            self.then = Then::Nothing;
            return Sort::Reported;
        }
        if is_bad_word(Sort::Turn, field) {
            self.then = Then::Happened;
            return Sort::Reported;
        }
        self.take_turn(field)
    }

    fn take_never(&mut self, field: &[u8]) -> Sort {
        if is_word(field, b"waits") {
            self.then = Then::Waits;
            return Sort::Never;
        }
        if is_word(field, b"blocked") {
            self.set(&[Sort::Name(Kind::Thread)], Then::Nothing);
            return Sort::Never;
        }
        if is_word(field, b"spins") {
            self.set(&[Sort::Name(Kind::Lock)], Then::Nothing);
            return Sort::Never;
        }
        match behind_activity(field) {
            Some(sorts) => {
                self.set(sorts, Then::With);
                Sort::Never
            }
            None => self.take_event(field, Sort::Never),
        }
    }

    fn take_always(&mut self, field: &[u8]) -> Sort {
        if is_word(field, b"ends") {
            self.then = Then::Nothing;
            return Sort::Always;
        }
        self.take_event(field, Sort::Always)
    }

    /// Takes the word of an event where this may stand.
    fn take_event(&mut self, field: &[u8], sort: Sort) -> Sort {
        self.then = self.behind_event;
        if is_word(field, b"note") {
            self.fields = &[Sort::Number];
        }
        if is_word(field, b"begin") {
            self.then = Then::Begun;
        }
        if is_word(field, b"expire") {
            self.fields = &[Sort::Expire, Sort::Name(Kind::Timer)];
        }
        if is_word(field, b"gone") {
            self.fields = &[Sort::Name(Kind::Thread)];
        }
        if is_word(field, b"call") {
            self.then = Then::Verb;
        }
        sort
    }

    fn take_activity(&mut self, field: &[u8], then: Then) -> Sort {
        match behind_activity(field) {
            Some(sorts) => self.set(sorts, then),
            None => self.then = then,
        }
        Sort::Activity
    }

    fn take_waits(&mut self, field: &[u8]) -> Sort {
        self.then = Then::Nothing;
        if is_word(field, b"dpc") {
            self.fields = &[Sort::Name(Kind::Dpc)];
        }
        if is_word(field, b"apc") {
            self.fields = &[Sort::Name(Kind::Apc)];
        }
        Sort::Waits
    }

    fn take_verb(&mut self, field: &[u8]) -> Sort {
        match keyword_of(2, field) {
            Some(Keyword::Call(verb)) => self.set(behind_verb(verb), Then::Arrow),
            _ => self.then = Then::Arrow,
        }
        Sort::Verb
    }

    fn take_reply(&mut self, field: &[u8]) -> Sort {
        self.then = self.behind_event;
        if is_word(field, b"status") {
            self.fields = &[Sort::Status];
        }
        Sort::Reply
    }

    fn take_link(&mut self, field: &[u8]) -> Sort {
        self.then = Then::Nothing;
        if is_word(field, b"above") {
            self.fields = &[Sort::Level];
        }
        if is_word(field, b"on") {
            self.fields = &[Sort::Cpu];
        }
        if is_word(field, b"after") || is_word(field, b"before") {
            self.then = Then::Event;
            self.behind_event = Then::Nothing;
        }
        Sort::Link
    }
}

/// What stands behind the word of an activity.
fn behind_activity(field: &[u8]) -> Option<&'static [Sort]> {
    if is_word(field, b"int") {
        return Some(&[Sort::IsrLevel]);
    }
    if is_word(field, b"dpc") {
        return Some(&[Sort::Name(Kind::Dpc)]);
    }
    if is_word(field, b"apc") {
        return Some(&[Sort::Name(Kind::Apc)]);
    }
    if is_word(field, b"thread") {
        return Some(&[Sort::Name(Kind::Thread)]);
    }
    None
}
