//! What is wrong with a line, in a few words.
ghost use Rattle.std.specs.Prelude.{◌≡◌};
ghost use Rattle.nt_people.specs.Titles.{kind_title, title, too_many};

use crate::fault::Fault;
use nt_expect::ExpectKind;
use nt_text::{ScriptKind, What10};

/// Of what there are too many.
fn too_many(thing: What10) -> &'static str
    ensures { result.now ≡ too_many thing }
{
    match thing {
        What10::Cpus => "too many processors",
        What10::Threads => "too many threads",
        What10::Dpcs => "too many DPC objects",
        What10::Apcs => "too many APC objects",
        What10::Timers => "too many timers",
        What10::Spinlocks => "too many spin locks",
        What10::Routines => "too many routines",
        What10::Commands => "too many commands",
        What10::Turns => "too many turns",
    }
}

/// A kind of refusal in words.
fn kind_title(kind: ScriptKind) -> &'static str
    ensures { result.now ≡ kind_title kind }
{
    match kind {
        ScriptKind::NotAscii => "a character that may not stand here",
        ScriptKind::UnknownWord => "unknown word",
        ScriptKind::MissingField => "a field is missing",
        ScriptKind::ExtraField => "a field too many",
        ScriptKind::BadNumber => "no number that may stand here",
        ScriptKind::BadName => "no name",
        ScriptKind::NameTwice => "declared twice",
        ScriptKind::UnknownName => "unknown name",
        ScriptKind::NoCpus => "the line cpus is missing",
        ScriptKind::TooMany(thing) => too_many(thing),
        ScriptKind::NoEnd => "the text ends too early",
        ScriptKind::WrongKind => "not of the kind that stands here",
    }
}

/// What is wrong with a line, in a few words.
pub(crate) fn title(fault: Fault) -> &'static str
    ensures { result.now ≡ title fault }
{
    match fault {
        Fault::Script(kind) | Fault::Schedule(kind) | Fault::Report(kind) => kind_title(kind),
        Fault::Expect(ExpectKind::Line(kind)) => kind_title(kind),
        Fault::Expect(ExpectKind::TooMany) => "too many expectations",
    }
}
