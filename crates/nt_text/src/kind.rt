//! What may be wrong with a line, with the numbers and names that the program writes.
ghost use Rattle.std.specs.Prelude.{◌≡◌, ◌≤◌};
ghost use Rattle.nt_text.specs.Kinds.{kind_number, kind_name, thing_name};

/// Of what there are too many.
#[derive(Clone, Copy, PartialEq, Eq, Debug)]
pub enum What10 {
    /// Processors.
    Cpus,
    /// Threads.
    Threads,
    /// DPC objects.
    Dpcs,
    /// APC objects.
    Apcs,
    /// Timers.
    Timers,
    /// Spin locks.
    Spinlocks,
    /// Routines.
    Routines,
    /// Commands of all routines together.
    Commands,
    /// Turns of a schedule.
    Turns,
}

impl What10 {
    /// The thing in lower case, as it is written behind `TooMany`.
    pub fn name(self) -> &'static str
        ensures { result.now ≡ thing_name self }
    {
        match self {
            What10::Cpus => "cpus",
            What10::Threads => "threads",
            What10::Dpcs => "dpcs",
            What10::Apcs => "apcs",
            What10::Timers => "timers",
            What10::Spinlocks => "spinlocks",
            What10::Routines => "routines",
            What10::Commands => "commands",
            What10::Turns => "turns",
        }
    }
}

/// What is wrong with a line (profile: the kinds, their numbers and names).
#[derive(Clone, Copy, PartialEq, Eq, Debug)]
pub enum ScriptKind {
    /// A byte outside 32 to 126 stands in the line.
    NotAscii,
    /// A word that may not stand at this place.
    UnknownWord,
    /// Too few fields.
    MissingField,
    /// Too many fields; a space at the end of a line makes one more, empty field.
    ExtraField,
    /// No decimal number without leading zeros, or one out of its range.
    BadNumber,
    /// No name: not 1 to 16 of a to z, 0 to 9 and `_`.
    BadName,
    /// A new name that an earlier line declares, or a pair of an `isr` line that stood before.
    NameTwice,
    /// A used name that no line declares.
    UnknownName,
    /// The first field of the line where `cpus` has to stand is another one, or the text ends
    /// before that line.
    NoCpus,
    /// The line is the first above a limit.
    TooMany(What10),
    /// The last line has no byte 10 at its end, or the text ends too early.
    NoEnd,
    /// A used name whose first declaring line is of another kind.
    WrongKind,
}

impl ScriptKind {
    /// Its number in the line of a refused text, 1 to 12.
    pub fn number(self) -> u8
        ensures { result ≡ kind_number self }
    {
        match self {
            ScriptKind::NotAscii => 1,
            ScriptKind::UnknownWord => 2,
            ScriptKind::MissingField => 3,
            ScriptKind::ExtraField => 4,
            ScriptKind::BadNumber => 5,
            ScriptKind::BadName => 6,
            ScriptKind::NameTwice => 7,
            ScriptKind::UnknownName => 8,
            ScriptKind::NoCpus => 9,
            ScriptKind::TooMany(_) => 10,
            ScriptKind::NoEnd => 11,
            ScriptKind::WrongKind => 12,
        }
    }

    /// Its name in the line of a refused text. For `TooMany` the thing's name is written behind it.
    pub fn name(self) -> &'static str
        ensures { result.now ≡ kind_name self }
    {
        match self {
            ScriptKind::NotAscii => "NotAscii",
            ScriptKind::UnknownWord => "UnknownWord",
            ScriptKind::MissingField => "MissingField",
            ScriptKind::ExtraField => "ExtraField",
            ScriptKind::BadNumber => "BadNumber",
            ScriptKind::BadName => "BadName",
            ScriptKind::NameTwice => "NameTwice",
            ScriptKind::UnknownName => "UnknownName",
            ScriptKind::NoCpus => "NoCpus",
            ScriptKind::TooMany(_) => "TooMany",
            ScriptKind::NoEnd => "NoEnd",
            ScriptKind::WrongKind => "WrongKind",
        }
    }
}
