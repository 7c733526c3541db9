//! The request that is to be delivered.
ghost use Rattle.std.specs.Prelude.{◌≡◌};
ghost use Rattle.std.specs.List.{list_any};
ghost use Rattle.nt_history.specs.Briefs.{no_rises, what_of};
ghost use Rattle.nt_shrink.specs.Goals.{begins, delivers as delivers_in};

use nt_event::{ApcNo, Begun, DpcNo, Event, What};
use nt_history::{Brief, Did, History};

/// The object whose routine is to begin.
#[derive(Clone, Copy, PartialEq, Eq, Debug)]
pub enum Goal {
    /// The DPC, threaded or not.
    Dpc(DpcNo),
    /// The APC.
    Apc(ApcNo),
}

impl Goal {
    ghost use Rattle.nt_history.specs.Briefs.{no_rises, what_of};
    ghost use Rattle.nt_shrink.specs.Goals.{begins, is_routine_of};

    /// Whether this is the routine of the object.
    fn is_begun(self, begun: &Begun) -> bool
        ensures { result ≡ is_routine_of self begun.now }
    {
        match (self, begun) {
            (Goal::Dpc(wanted), Begun::Dpc(dpc) | Begun::Threaded(dpc)) => wanted.0 == dpc.0,
            (Goal::Apc(wanted), Begun::Apc(apc)) => wanted.0 == apc.0,
            (Goal::Dpc(_), Begun::Int(_) | Begun::Apc(_))
            | (Goal::Apc(_), Begun::Int(_) | Begun::Dpc(_) | Begun::Threaded(_)) => false,
        }
    }

    /// Whether the event of this brief begins a routine of the object.
    fn is_met_by(self, brief: &Brief) -> bool
        ensures { result ≡ begins self (what_of no_rises brief.now.did) }
    {
        if let Did::Begin { begun, .. } = &brief.did {
            self.is_begun(begun)
        } else {
            false
        }
    }

    /// Whether the event begins a routine of the object.
    pub(crate) fn is_begun_by(self, event: &Event) -> bool
        ensures { result ≡ begins self event.now.what }
    {
        if let What::Begin { begun, .. } = &event.what {
            self.is_begun(begun)
        } else {
            false
        }
    }
}

/// Whether one of these events begins a routine of the object.
fn is_met(briefs: &[Brief], goal: Goal) -> bool
    ensures { result ≡ list_any (λ b. begins goal (what_of no_rises b.did)) briefs.now }
{
    briefs.iter().any(|brief| goal.is_met_by(brief))
}

/// Whether a routine of the object begins in the history. No memory is taken.
pub fn delivers(history: &History, goal: Goal) -> bool
    ensures { result ≡ delivers_in goal history.now.events }
{
    is_met(history.lend().briefs, goal)
}
