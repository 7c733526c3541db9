//! Replays of lists of turns.
ghost use Rattle.std.specs.Prelude.{◌≡◌, ◌≤◌, ◌*◌, [], IfErr, IfOk, IsTrue, Ok, OnOk, length};
ghost use Rattle.std.specs.Prelude.{reverse};
ghost use Rattle.nt_event.specs.Script.{fits};
ghost use Rattle.nt_core.specs.Refusals.{IsReplayRefused};
ghost use Rattle.nt_core.specs.Replays.{replayed};
ghost use Rattle.nt_core.specs.declared.refusals.ScheduleRefusal.{ScheduleRefusal};

use crate::machine::Core;
use crate::refusals::ScheduleRefusal;
use nt_cpu::no_event;
use nt_event::limits::{EVENTS, TURNS};
use nt_event::{ScheduleKind, Script};
use nt_history::{History, Turns, no_turn};
use std::alloc::Global;

impl<'s> Core<'s> {
    /// The refusal of the next turn, or of the end.
    fn bad(&self, kind: ScheduleKind) -> ScheduleRefusal
        ensures { result ≡ ScheduleRefusal.Bad (length self.now.past) kind }
    {
        ScheduleRefusal::Bad {
            at: self.events.len() as u32,
            kind,
        }
    }

    /// Takes the turns of a list where no event was made before, if all are taken and together
    /// settle; else the first that is refused, or Unfinished.
    fn take_all(&mut self, list: &Turns) -> Result<(), ScheduleRefusal>
        requires { self.old.past ≡ [] }
        ensures limit { OnOk result (self.new.limit ≡ self.old.limit) }
        ensures ok { OnOk result
            (replayed self.old.script self.old.limit list.now ≡ Ok self.new.past) }
        ensures err { IfErr result
            (λ r. IsReplayRefused self.old.script self.old.limit list.now r) }
    {
        let mut event = no_event();
        let mut walk = list.walk();
        let mut turn = no_turn();
        while walk.next(&mut turn) {
            if let Err(refusal) = self.make(&turn, &mut event) {
                return Err(self.bad(refusal.kind()));
            }
        }
        if !self.settled() {
            return Err(self.bad(ScheduleKind::Unfinished));
        }
        Ok(())
    }
}

/// The run that a list of turns stands for, where each processor may make this many events.
///
/// The script fits, and `turns` is 1 to 20,000 and at most 160,000 in all processors together. The
/// first turn that is refused is told with its place, from 0, and its kind; Unfinished comes where
/// all turns were taken and the history isn't settled, with their number.
pub fn replay(
    alloc: Global,
    script: &Script,
    turns: u32,
    list: &Turns,
) -> Result<History, ScheduleRefusal>
    requires script { IsTrue (fits script.now) }
    requires turns { (1 ≤ turns) × (turns ≤ TURNS) }
    requires all { script.now.cpus * turns ≤ EVENTS }
    ensures turns { IfOk result (λ h. h.turns ≡ turns) }
    ensures ok { IfOk result (λ h. replayed script.now turns list.now ≡ Ok (reverse h.events)) }
    ensures err { IfErr result (λ r. IsReplayRefused script.now turns list.now r) }
{
    let mut core = match Core::new(alloc, script, turns) {
        Ok(core) => core,
        Err(_) => return Err(ScheduleRefusal::NoMemory),
    };
    let taken = core.take_all(list);
    let history = core.finish();
    match taken {
        Ok(()) => Ok(history),
        Err(refusal) => Err(refusal),
    }
}
