//! What an event leaves of the states.
ghost use Rattle.std.specs.Prelude.{◌≡◌, ◌+◌, ◌-◌, ◌≤◌, ◌^◌};
ghost use Rattle.nt_event.specs.Acting.{acted_event};
ghost use Rattle.nt_event.specs.Lanes.{lanes_after};
ghost use Rattle.nt_states.specs.Allowed.{MayMake};

use super::States;
use nt_event::Event;
use nt_frame::StandView;
use nt_states::leave_timers;

impl<'s> States<'s> {
    /// What the event of this number leaves, which a job gave a processor that stood so.
    pub(crate) fn leave(&mut self, n: u64, stand: &StandView, event: &Event)
        requires given { MayMake self.old stand.now event.now.what }
        requires event { event.now ≡ acted_event stand.now self.old.lanes event.now.what }
        requires time { self.old.lanes.timers.now + 2 ^ 32 ≤ 2 ^ 50 }
        ensures lanes { self.new ≡ record self.old {
          lanes = lanes_after self.old.script n stand.now event.now self.old.lanes;
        } }
        ensures time { self.new.lanes.timers.now ≤ self.old.lanes.timers.now + (2 ^ 32 - 1) }
    {
        self.dpcs.leave(n, stand.cpu(), &event.what);
        self.threads.leave(n, stand, event);
        leave_timers(&mut self.timers, n, stand, event);
        self.locks.leave(stand.cpu(), &event.what);
    }
}
