//! What may be wrong with a line of any text that people write.
use nt_expect::ExpectKind;
use nt_text::ScriptKind;

/// What a strict reader says of a line.
#[derive(Clone, Copy, PartialEq, Eq, Debug)]
pub enum Fault {
    /// The reader of scripts: the line belongs to the script.
    Script(ScriptKind),
    /// The reader of expectations: the line stands behind the script.
    Expect(ExpectKind),
    /// The reader of schedules.
    Schedule(ScriptKind),
    /// The reader of reports.
    Report(ScriptKind),
}

/// Of which text a line is.
#[derive(Clone, Copy, PartialEq, Eq, Debug)]
pub(crate) enum TextPart {
    /// The script.
    Script,
    /// Expectations.
    Expectations,
    /// A schedule.
    Schedule,
    /// A report.
    Report,
}

impl Fault {
    /// Of which text the line is.
    pub(crate) fn part(self) -> TextPart {
        match self {
            Fault::Script(_) => TextPart::Script,
            Fault::Expect(_) => TextPart::Expectations,
            Fault::Schedule(_) => TextPart::Schedule,
            Fault::Report(_) => TextPart::Report,
        }
    }

    /// What is wrong with the line by itself. None where it is one expectation too many.
    pub(crate) fn kind(self) -> Option<ScriptKind> {
        match self {
            Fault::Script(kind) | Fault::Schedule(kind) | Fault::Report(kind) => Some(kind),
            Fault::Expect(ExpectKind::Line(kind)) => Some(kind),
            Fault::Expect(ExpectKind::TooMany) => None,
        }
    }
}
