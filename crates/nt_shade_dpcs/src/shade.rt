//! What stands in the lanes, all in one place.
ghost use Rattle.std.specs.Prelude.{◌≡◌, ◌+◌, ◌≤◌, ◌^◌, ◌∷◌, [], IfOk, IsTrue, List, OnOk};
ghost use Rattle.nt_event.specs.declared.events.Event.{Event};
ghost use Rattle.nt_event.specs.Script.{fits, has_cpu};
ghost use Rattle.nt_shade_dpcs.specs.Shade.{IsShade, due_again};

use crate::locks::{ShadeLock, follow_locks};
use crate::making;
use crate::objects::{ShadeObject, follow_objects};
use crate::queues::{ShadeQueue, follow_queues};
use crate::timers::ShadeTimers;
use nt_dpc_lanes::change_of;
use nt_event::{Event, Script};
use std::alloc::{AllocError, Global};

/// What stands in the lanes of a script but those of threads, without the numbers of events.
#[derive(Clone, PartialEq, Eq, Hash, Drop, Debug)]
pub struct ShadeDpcs {
    pub objects: Vec<ShadeObject>,
    pub queues: Vec<ShadeQueue>,
    pub locks: Vec<ShadeLock>,
    pub timers: ShadeTimers,
}

impl ShadeDpcs {
    /// What stands there before any event of the script, which fits.
    pub fn new(alloc: Global, script: &Script) -> Result<ShadeDpcs, AllocError>
        requires { IsTrue (fits script.now) }
        ensures { IfOk result (λ x. IsShade script.now [] x) }
    {
        Ok(ShadeDpcs {
            objects: making::objects(alloc, script)?,
            queues: making::queues(alloc, script)?,
            locks: making::locks(alloc, script)?,
            timers: ShadeTimers::new(alloc),
        })
    }

    /// Takes in the next event of a history of the script, which fits; a wait that the event takes
    /// up again is due then. After an error it says nothing.
    pub fn follow(
        &mut self,
        script: &Script,
        event: &Event,
        due: Option<u64>,
    ) -> Result<(), AllocError>
        requires script { IsTrue (fits script.now) }
        requires cpu { IsTrue (has_cpu script.now event.now.cpu) }
        requires time { self.old.timers.now + 2 ^ 32 ≤ 2 ^ 64 }
        requires shade { (past : List Event) × IsShade script.now past self.old }
        ensures { OnOk result ((past : List Event) → IsShade script.now past self.old →
            due ≡ due_again script.now event.now past →
            IsShade script.now (event.now ∷ past) self.new) }
    {
        let change = change_of(&event.what);
        let by = event.cpu;
        follow_queues(
            &mut self.queues,
            script,
            self.objects.as_slice(),
            by,
            change,
        )?;
        follow_objects(&mut self.objects, by, change);
        follow_locks(&mut self.locks, by, &event.what);
        self.timers.follow(script, event, due)?;
        Ok(())
    }
}
