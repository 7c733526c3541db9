//! The usual cause of what is wrong, and what to do.
use crate::fault::{Fault, TextPart};
use crate::locating::{Found, Spot, Way};
use crate::sorts::{Sort, is_bad_word};
use nt_line::Kind;
use nt_text::{ScriptKind, What10};

/// What to do about a word that is one, but not here.
fn misplaced(part: TextPart) -> &'static str {
    match part {
        TextPart::Script => {
            "this word may not stand here: the parts of a script are version, cpus, depth, \
             threaded, isr, dpc, timer, thread, APCs, spinlock and routines, in this order; \
             commands stand between \"routine\" and \"exit\""
        }
        TextPart::Expectations => {
            "this word may not stand here: expectations begin with the line \"expect\" and end \
             with the line \"done\""
        }
        TextPart::Schedule => {
            "this word may not stand here: a schedule begins with \"schedule N\" and ends with \
             \"done\""
        }
        TextPart::Report => {
            "this word may not stand here: a report begins with \"report\", has a line for each \
             event, and ends with its schedule"
        }
    }
}

/// What to write in place of a word, by what may stand there.
fn word_advice(sort: Sort) -> &'static str {
    match sort {
        Sort::Keyword => "no line of a script begins with this word; words are in small letters",
        Sort::Quantifier => "a line of expectations begins with \"never\", \"always\" or \"done\"",
        Sort::Never => {
            "behind \"never\" stands an event (note, refused, begin, expire, gone, call), an \
             activity (int, dpc, apc, thread), or waits, blocked or spins"
        }
        Sort::Always => {
            "behind \"always\" stands an event (note, refused, begin, expire, gone, call), or ends"
        }
        Sort::Event => "here stands an event: note, refused, begin, expire, gone or call",
        Sort::Activity => "here stands an activity: int, dpc, apc or thread",
        Sort::With => "between two activities stands the word \"with\"",
        Sort::Waits => "behind \"waits\" stands \"dpc\" or \"apc\"",
        Sort::Expire => "behind \"expire\" stands \"timer\" and the name of a timer",
        Sort::Verb => "behind \"call\" stands a command as in a script",
        Sort::Arrow => "between a command and its reply stands \"->\"",
        Sort::Reply => {
            "a reply is yes, no, done, blocked, status X, refused, or in version 2 spin"
        }
        Sort::Link => "behind an event stands after, before, twice, above or on",
        Sort::Turn => "a line of a schedule begins with schedule, next, switch, look or done",
        Sort::OnOff => "write \"on\" or \"off\"",
        Sort::Mode => "write \"kernel\" or \"user\"",
        Sort::Alertable => "write \"plain\" or \"alertable\"",
        Sort::Importance => "an importance is low, medium, mediumhigh or high",
        Sort::Version
        | Sort::Cpus
        | Sort::Depth
        | Sort::Number
        | Sort::Level
        | Sort::IsrLevel
        | Sort::RequestedLevel
        | Sort::Cpu
        | Sort::Target
        | Sort::Status
        | Sort::Turns
        | Sort::Seen
        | Sort::NewName
        | Sort::Name(_)
        | Sort::NameOrNone(_)
        | Sort::Reported
        | Sort::Nothing => "another word has to stand here",
    }
}

/// What number has to stand in a field.
fn number_advice(sort: Sort) -> &'static str {
    match sort {
        Sort::Version => "the only number here is 2; a script of version 1 has no line \"version\"",
        Sort::Cpus => "write how many processors there are, at least 1",
        Sort::Depth => "write a limit from 0 to 256",
        Sort::Number => "write a decimal number up to 4294967295, without sign or leading zeros",
        Sort::Level => {
            "a level is 0 to 15, or PASSIVE, APC, DISPATCH, DIRQL N, SYNCH, CLOCK, IPI or HIGH"
        }
        Sort::IsrLevel => "an interrupt level is 3 to 11, 13 (CLOCK) or 14 (IPI)",
        Sort::RequestedLevel => "a level that is requested is 3 to 11 or 14 (IPI)",
        Sort::Cpu =>
            "processors are counted from 0: write a number below that of the line \"cpus\"",
        Sort::Target => "write \"own\", or a processor: a number below that of the line \"cpus\"",
        Sort::Status => "a status is hexadecimal, in small letters, without leading zeros",
        Sort::Turns => "write a turn limit from 1 to 20000, for more than 8 processors up to 2500",
        Sort::Seen => "write C=V: a class above the one before it and the value that was found",
        Sort::Keyword
        | Sort::Quantifier
        | Sort::Never
        | Sort::Always
        | Sort::Event
        | Sort::Activity
        | Sort::With
        | Sort::Waits
        | Sort::Expire
        | Sort::Verb
        | Sort::Arrow
        | Sort::Reply
        | Sort::Link
        | Sort::Turn
        | Sort::OnOff
        | Sort::Mode
        | Sort::Alertable
        | Sort::Importance
        | Sort::NewName
        | Sort::Name(_)
        | Sort::NameOrNone(_)
        | Sort::Reported
        | Sort::Nothing => "a number of this line is out of its range",
    }
}

/// What to do where a name of this kind is not declared.
fn unknown_name(kind: Kind) -> &'static str {
    match kind {
        Kind::Dpc => "no DPC object of this name is declared",
        Kind::Timer => "no timer of this name is declared",
        Kind::Thread => "no thread of this name is declared",
        Kind::Apc => "no APC object of this name is declared",
        Kind::Lock => "no spin lock of this name is declared",
        Kind::Routine => "no routine of this name is declared",
    }
}

/// What to do where a name of another kind stands.
fn other_kind(kind: Kind) -> &'static str {
    match kind {
        Kind::Dpc => "here stands the name of a DPC object, and this one is of another thing",
        Kind::Timer => "here stands the name of a timer, and this one is of another thing",
        Kind::Thread => "here stands the name of a thread, and this one is of another thing",
        Kind::Apc => "here stands the name of an APC object, and this one is of another thing",
        Kind::Lock => "here stands the name of a spin lock, and this one is of another thing",
        Kind::Routine => {
            "here stands the name of a routine, and this one is of another thing: a thread and \
             its routine need two names"
        }
    }
}

/// The kind of a thing whose name may stand in a field.
fn named_kind(sort: Sort) -> Option<Kind> {
    match sort {
        Sort::Name(kind) | Sort::NameOrNone(kind) => Some(kind),
        _ => None,
    }
}

/// What has to stand where a field is missing.
fn missing(sort: Sort) -> &'static str {
    match sort {
        Sort::Number => {
            "a number is missing; a timer has its due time and then its period, 0 for none"
        }
        Sort::NewName => "a name is missing: 1 to 16 of the signs a to z, 0 to 9 and _",
        Sort::Name(kind) => missing_name(kind),
        Sort::NameOrNone(_) => "a name is missing: write - for none",
        Sort::Reported | Sort::Nothing => "something is missing in this line",
        Sort::Version
        | Sort::Cpus
        | Sort::Depth
        | Sort::Level
        | Sort::IsrLevel
        | Sort::RequestedLevel
        | Sort::Cpu
        | Sort::Target
        | Sort::Status
        | Sort::Turns
        | Sort::Seen => number_advice(sort),
        Sort::Keyword
        | Sort::Quantifier
        | Sort::Never
        | Sort::Always
        | Sort::Event
        | Sort::Activity
        | Sort::With
        | Sort::Waits
        | Sort::Expire
        | Sort::Verb
        | Sort::Arrow
        | Sort::Reply
        | Sort::Link
        | Sort::Turn
        | Sort::OnOff
        | Sort::Mode
        | Sort::Alertable
        | Sort::Importance => word_advice(sort),
    }
}

/// What has to stand where the name of a thing of this kind is missing.
fn missing_name(kind: Kind) -> &'static str {
    match kind {
        Kind::Dpc => "the name of a DPC object is missing",
        Kind::Timer => "the name of a timer is missing",
        Kind::Thread => "the name of a thread is missing",
        Kind::Apc => "the name of an APC object is missing",
        Kind::Lock => "the name of a spin lock is missing",
        Kind::Routine => "the name of a routine is missing",
    }
}

/// Whether the line of a field too many is none of the text's own, since its first word is none.
fn is_behind_done(part: TextPart, found: &Found) -> bool {
    part == TextPart::Expectations
        && found.spot == Spot::Field(1)
        && is_bad_word(Sort::Quantifier, found.before)
}

/// What to do about a field too many.
fn about_extra(part: TextPart, found: &Found) -> &'static str {
    if found.way == Way::Place || is_behind_done(part, found) {
        return "nothing more may stand behind the line \"done\"";
    }
    if found.before == b"DIRQL".as_slice() {
        "behind DIRQL stands the level of a device, a number from 3 to 11"
    } else {
        "nothing more may stand in this line: a comment begins with #"
    }
}

/// What to do where there are too many.
fn too_many(thing: What10) -> &'static str {
    match thing {
        What10::Cpus => {
            "a script has at most 8 processors, and 64 with \"version 2\" as its first line"
        }
        What10::Threads => "a script has at most 64 threads",
        What10::Dpcs => "a script has at most 256 DPC objects",
        What10::Apcs => "a script has at most 256 APC objects",
        What10::Timers => "a script has at most 64 timers",
        What10::Spinlocks => "a script has at most 64 spin locks",
        What10::Routines => "a script has at most 256 routines",
        What10::Commands => "the routines of a script have at most 8192 commands together",
        What10::Turns => "a schedule has at most 160000 turns",
    }
}

/// What to do where a text ends too early.
fn early_end(part: TextPart, text: &[u8]) -> &'static str {
    match part {
        TextPart::Script if text.ends_with(b"exit\n") => {
            "expectations are missing: behind the last routine they begin with the line \"expect\""
        }
        TextPart::Script => "a routine ends with the line \"exit\"",
        TextPart::Expectations => "expectations end with the line \"done\"",
        TextPart::Schedule => "a schedule ends with the line \"done\"",
        TextPart::Report => "a report ends with its schedule, and that with the line \"done\"",
    }
}

/// What to do about a word.
fn about_word(part: TextPart, found: &Found) -> &'static str {
    match found.way {
        Way::Itself => word_advice(found.sort),
        Way::Version => "this word is of version 2: write the line \"version 2\" first of all",
        Way::Place => misplaced(part),
    }
}

/// What to do about a name that no line declares.
fn about_unknown(sort: Sort) -> &'static str {
    match named_kind(sort) {
        Some(kind) => unknown_name(kind),
        None => "a name of this line is not declared",
    }
}

/// What to do about a name or a reply of another kind, or about a line of a report.
fn about_other_kind(part: TextPart, sort: Sort) -> &'static str {
    match (part, named_kind(sort)) {
        (TextPart::Report, _) => {
            "the number of an event is one more than that of the line before it, a name is one of \
             the kind that stands here, and a reply one that the command gives"
        }
        (_, Some(kind)) => other_kind(kind),
        (_, None) => {
            "the command never gives this reply: docs/machine.md tells what each may reply"
        }
    }
}

/// What to do about something that is declared twice.
fn about_twice(sort: Sort) -> &'static str {
    match sort {
        Sort::NewName => {
            "an earlier line declares this name: all things of a script need names of their own"
        }
        _ => "an earlier line has this processor and level: one routine serves each interrupt",
    }
}

/// What to do about what is wrong in a line of this strict text.
pub(crate) fn advice(fault: Fault, text: &[u8], found: &Found) -> &'static str {
    let Some(kind) = fault.kind() else {
        return "a script has at most 64 expectations: ask for the others in a text of their own";
    };
    match kind {
        ScriptKind::NotAscii => {
            "only letters, digits and signs of ASCII stand outside comments: write the name \
             without accents, and save the text as UTF-8"
        }
        ScriptKind::UnknownWord => about_word(fault.part(), found),
        ScriptKind::MissingField => missing(found.sort),
        ScriptKind::ExtraField => about_extra(fault.part(), found),
        ScriptKind::BadNumber => number_advice(found.sort),
        ScriptKind::BadName => "a name has 1 to 16 of the signs a to z, 0 to 9 and _",
        ScriptKind::NameTwice => about_twice(found.sort),
        ScriptKind::UnknownName => about_unknown(found.sort),
        ScriptKind::NoCpus =>
            "a script begins with \"cpus N\", behind \"version 2\" where that stands",
        ScriptKind::TooMany(thing) => too_many(thing),
        ScriptKind::NoEnd => early_end(fault.part(), text),
        ScriptKind::WrongKind => about_other_kind(fault.part(), found.sort),
    }
}
