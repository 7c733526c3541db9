//! The parts of a report, and which line begins which.
ghost use Rattle.std.specs.Prelude.{◌≡◌};
ghost use Rattle.nt_report.specs.Reading.{earliest, is_numbered, latest, line_word, order, stands};
ghost use Rattle.nt_report.specs.Reading.{word_at};

use nt_text::ScriptKind;

/// The part of a report that was read last.
#[derive(Clone, Copy, PartialEq, Eq, Debug)]
pub(crate) enum ReportPlace {
    /// Nothing was read.
    Start,
    /// The first line, and maybe event lines.
    InEvents,
    /// A `cut` line.
    InCuts,
    /// A `spins` line.
    InSpins,
    /// A `waits` line.
    InWaits,
    /// A line of the schedule.
    InSchedule,
}

/// What begins a line before the schedule, or its first line.
#[derive(Clone, Copy, PartialEq, Eq, Debug)]
pub(crate) enum LineWord {
    /// `report`.
    Report,
    /// A digit: the line of an event.
    Event,
    /// `cut`.
    Cut,
    /// `spins`.
    Spins,
    /// `waits`.
    Waits,
    /// `schedule`.
    Schedule,
}

fn is_numbered(field: &[u8]) -> bool
    ensures { result ≡ is_numbered field.now }
{
    match field {
        [byte, ..] => byte.is_ascii_digit(),
        [] => false,
    }
}

/// What a first field begins.
fn line_word(field: &[u8]) -> Option<LineWord>
    ensures { result ≡ line_word field.now }
{
    if is_numbered(field) {
        return Some(LineWord::Event);
    }
    if field == b"report".as_slice() {
        return Some(LineWord::Report);
    }
    if field == b"cut".as_slice() {
        return Some(LineWord::Cut);
    }
    if field == b"spins".as_slice() {
        return Some(LineWord::Spins);
    }
    if field == b"waits".as_slice() {
        return Some(LineWord::Waits);
    }
    if field == b"schedule".as_slice() {
        return Some(LineWord::Schedule);
    }
    None
}

impl ReportPlace {
    /// Its number in the order of a report's parts.
    fn order(self) -> u8
        ensures { result ≡ order self }
    {
        match self {
            ReportPlace::Start => 0,
            ReportPlace::InEvents => 1,
            ReportPlace::InCuts => 2,
            ReportPlace::InSpins => 3,
            ReportPlace::InWaits => 4,
            ReportPlace::InSchedule => 5,
        }
    }
}

impl LineWord {
    /// The first place behind which such a line may stand.
    fn earliest(self) -> u8
        ensures { result ≡ earliest self }
    {
        match self {
            LineWord::Report => 0,
            LineWord::Event
            | LineWord::Cut
            | LineWord::Spins
            | LineWord::Waits
            | LineWord::Schedule => 1,
        }
    }

    /// The last place behind which such a line may stand.
    fn latest(self) -> u8
        ensures { result ≡ latest self }
    {
        match self {
            LineWord::Report => 0,
            LineWord::Event => 1,
            LineWord::Cut => 2,
            LineWord::Spins => 3,
            LineWord::Waits | LineWord::Schedule => 4,
        }
    }

    /// Whether such a line may stand behind what was read last.
    fn stands(self, place: ReportPlace) -> bool
        ensures { result ≡ stands place self }
    {
        self.earliest() <= place.order() && place.order() <= self.latest()
    }
}

/// What begins a line at this place.
pub(crate) fn word_at(place: ReportPlace, field: &[u8]) -> Result<LineWord, ScriptKind>
    ensures { result ≡ word_at place (line_word field.now) }
{
    match line_word(field) {
        Some(word) => {
            if word.stands(place) {
                Ok(word)
            } else {
                Err(ScriptKind::UnknownWord)
            }
        }
        None => Err(ScriptKind::UnknownWord),
    }
}
