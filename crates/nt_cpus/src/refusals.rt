//! Why a turn is refused.
ghost use Rattle.std.specs.Prelude.{◌≡◌};
ghost use Rattle.nt_cpu.specs.declared.turn.TurnRefusal.{TurnRefusal};
ghost use Rattle.nt_cpu.specs.Turns.{kind_of_refusal};
ghost use Rattle.nt_cpus.specs.Refusals.{kind_of};

use nt_cpu::TurnRefusal;
use nt_event::ScheduleKind;

/// Why a turn made no event.
#[derive(Clone, Copy, PartialEq, Eq, Debug)]
pub enum CoreRefusal {
    /// The turn's processor is not one of the script's.
    NoSuchCpu,
    /// The processor has no next event, or made as many as it may.
    NothingToDo,
    /// A look in which no value rises, one that is not above what was seen, or one that no event
    /// asked for.
    BadLook,
    /// A switch to a thread that cannot be taken up, or where none can.
    BadChoice,
}

impl CoreRefusal {
    /// Its kind, as a refused list of turns names it.
    pub fn kind(self) -> ScheduleKind
        ensures { result ≡ kind_of self }
    {
        match self {
            CoreRefusal::NoSuchCpu => ScheduleKind::NoSuchCpu,
            CoreRefusal::NothingToDo => ScheduleKind::NothingToDo,
            CoreRefusal::BadLook => ScheduleKind::BadLook,
            CoreRefusal::BadChoice => ScheduleKind::BadChoice,
        }
    }
}

/// The refusal of a processor's turn, from a floor that is alone and finds its memory.
pub(crate) fn core_refusal(refusal: TurnRefusal) -> CoreRefusal
    requires { refusal ≡ TurnRefusal.NoMemory → ⊥ }
    ensures { kind_of result ≡ kind_of_refusal refusal }
{
    match refusal {
        TurnRefusal::NothingToDo => CoreRefusal::NothingToDo,
        TurnRefusal::BadLook => CoreRefusal::BadLook,
        TurnRefusal::BadChoice => CoreRefusal::BadChoice,
        TurnRefusal::NoMemory => unreachable!(),
    }
}
