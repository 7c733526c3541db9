//! The exit statuses.
ghost use Rattle.std.specs.Prelude.{◌≡◌};
ghost use Rattle.nt_top.specs.Status.{status_number};

/// How the program ends.
#[derive(Clone, Copy, PartialEq, Eq, Debug)]
pub enum Status {
    /// The output was written.
    Ok,
    /// The words are no form of the command line.
    Usage,
    /// The script has no reading.
    Script,
    /// The schedule's turns make no settled run, or one that is to be shrunk is refused a turn.
    Schedule,
    /// The source failed.
    Read,
    /// The sink failed.
    Write,
    /// There was not enough memory.
    Memory,
    /// The input has more than 33,554,432 bytes.
    TooLong,
    /// The history is no settled run.
    Illegal,
    /// No DPC or APC object has the name of the goal.
    NoGoal,
    /// The schedule's turns don't deliver the goal.
    NotDelivered,
    /// The schedule has too many turns to be shrunk.
    TooMany,
}

impl Status {
    /// The number that the process ends with, 0 to 11.
    pub fn number(self) -> u8
        ensures { result ≡ status_number self }
    {
        match self {
            Status::Ok => 0,
            Status::Usage => 1,
            Status::Script => 2,
            Status::Schedule => 3,
            Status::Read => 4,
            Status::Write => 5,
            Status::Memory => 6,
            Status::TooLong => 7,
            Status::Illegal => 8,
            Status::NoGoal => 9,
            Status::NotDelivered => 10,
            Status::TooMany => 11,
        }
    }
}
