//! Why a text shows no run.
ghost use Rattle.std.specs.Prelude.{◌≡◌};
ghost use Rattle.nt_shown.specs.Refusals.{of_report, of_schedule, of_script};

use nt_event::ScheduleKind;
use nt_script::{ScriptKind, ScriptRefusal};
use std::alloc::AllocError;

/// Why a text shows no run. Lines are counted from 1 in the whole text.
#[derive(Clone, Copy, PartialEq, Eq, Debug)]
pub enum ShownRefusal {
    /// This line of the script is bad.
    Script { line: u32, kind: ScriptKind },
    /// This line of the schedule behind the script is bad.
    Schedule { line: u32, kind: ScriptKind },
    /// This line of the report behind the script is bad.
    Report { line: u32, kind: ScriptKind },
    /// The turn of the schedule at this place, from 0, is refused; or all turns were taken, and
    /// some processor has more to do.
    Turn { at: u32, kind: ScheduleKind },
    /// The event of this number is not one that the machine makes; or all are, and some processor
    /// has more to do.
    Event(u64),
    /// Out of memory.
    NoMemory,
}

impl From<AllocError> for ShownRefusal {
    ghost use Rattle.std.specs.Prelude.{◌≡◌};
    ghost use Rattle.nt_shown.specs.declared.refusal.ShownRefusal.TheVariants.{NoMemory};

    ghost from_gives = { λ _ e. e ≡ NoMemory };

    fn from(_: AllocError) -> ShownRefusal {
        ShownRefusal::NoMemory
    }
}

impl ShownRefusal {
    /// Where the script is refused so.
    pub(crate) fn of_script(refusal: ScriptRefusal) -> ShownRefusal
        ensures { result ≡ of_script refusal }
    {
        match refusal {
            ScriptRefusal::Bad { line, kind } => ShownRefusal::Script { line, kind },
            ScriptRefusal::NoMemory => ShownRefusal::NoMemory,
        }
    }

    /// Where the schedule is refused so.
    pub(crate) fn of_schedule(refusal: ScriptRefusal) -> ShownRefusal
        ensures { result ≡ of_schedule refusal }
    {
        match refusal {
            ScriptRefusal::Bad { line, kind } => ShownRefusal::Schedule { line, kind },
            ScriptRefusal::NoMemory => ShownRefusal::NoMemory,
        }
    }

    /// Where the report is refused so.
    pub(crate) fn of_report(refusal: ScriptRefusal) -> ShownRefusal
        ensures { result ≡ of_report refusal }
    {
        match refusal {
            ScriptRefusal::Bad { line, kind } => ShownRefusal::Report { line, kind },
            ScriptRefusal::NoMemory => ShownRefusal::NoMemory,
        }
    }
}
