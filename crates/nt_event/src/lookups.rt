//! What a script says of its things: where a thread and an APC object belong, which routine a frame
//! runs, and how its lanes are numbered.
ghost use Rattle.std.specs.Prelude.{◌≡◌, ◌<◌, ◌≤◌, ◌^◌, ◌&&◌, IsTrue, length, slice_get};
ghost use Rattle.nt_event.specs.Lanes as lanes;
ghost use Rattle.nt_event.specs.Routines as routines;
ghost use Rattle.nt_event.specs.Script.{fits, has_apc, has_cpu, has_thread};

use crate::limits::USUAL_DEPTH;
use crate::{
    ApcKind, ApcNo, Body, Command, CpuNo, DpcNo, Lane, RoutineNo, Script, ThreadNo, TimerNo,
};

impl Script {
    /// How many lanes there are: one for each DPC object, two for each processor, one for the
    /// timers, and one for each spin lock.
    pub fn lane_count(&self) -> usize
        requires { IsTrue (fits self.now) }
        ensures count { result ≡ lanes.lane_count self.now }
        ensures bound { result ≤ 1024 }
    {
        let cpus = usize::from(self.cpus);
        self.dpcs.len() + (cpus + (cpus + (1 + usize::from(self.locks))))
    }

    /// The depth limit of the DPC queues.
    pub fn depth_limit(&self) -> u32
        ensures { result ≡ routines.depth_limit self.now }
    {
        self.depth.unwrap_or(USUAL_DEPTH)
    }

    /// Whether the object is in the threaded part of its queue: it is declared threaded, and
    /// threaded DPCs are on.
    pub fn is_threaded(&self, dpc: DpcNo) -> bool
        ensures { result ≡ (routines.threaded_on self.now
            && routines.is_declared_threaded (slice_get self.now.dpcs dpc.0)) }
    {
        let declared = match self.dpcs.as_slice().get(dpc.0 as usize) {
            Some(declared) => declared.threaded,
            None => false,
        };
        self.threaded.unwrap_or(true) && declared
    }

    /// How many threads there are.
    pub fn thread_count(&self) -> u32
        requires { IsTrue (fits self.now) }
        ensures { result ≡ length self.now.threads }
    {
        self.threads.len() as u32
    }

    /// The processor that the thread is bound to; the first one past the last thread. In a script
    /// that fits, it is one of the script's.
    pub fn cpu_of(&self, thread: ThreadNo) -> CpuNo
        ensures cpu { result ≡ routines.cpu_of self.now thread }
        ensures named { IsTrue (fits self.now) → IsTrue (has_cpu self.now result) }
    {
        match self.threads.as_slice().get(thread.0 as usize) {
            Some(decl) => decl.cpu,
            None => CpuNo(0),
        }
    }

    /// The thread of an APC object; the first one past the last object. In a script that fits, an
    /// object's thread is one of the script's.
    pub fn owner_of(&self, apc: ApcNo) -> ThreadNo
        ensures owner { result ≡ routines.owner_of self.now apc }
        ensures named { IsTrue (fits self.now) → IsTrue (has_apc self.now apc) →
            IsTrue (has_thread self.now result) }
    {
        match self.apcs.as_slice().get(apc.0 as usize) {
            Some(decl) => decl.thread,
            None => ThreadNo(0),
        }
    }

    /// The kind of an APC object.
    pub fn kind_of(&self, apc: ApcNo) -> ApcKind
        ensures { result ≡ routines.kind_of self.now apc }
    {
        match self.apcs.as_slice().get(apc.0 as usize) {
            Some(decl) => decl.kind,
            None => ApcKind::Special,
        }
    }

    /// The DPC object that a timer's expiry inserts, if any.
    pub fn dpc_of(&self, timer: TimerNo) -> Option<DpcNo>
        ensures { result ≡ routines.dpc_of self.now timer }
    {
        let decl = self.timers.as_slice().get(timer.0 as usize)?;
        decl.dpc
    }

    /// The rundown routine of an APC object, if it has one.
    pub fn rundown_of(&self, apc: ApcNo) -> Option<RoutineNo>
        ensures { result ≡ routines.rundown_of self.now apc }
    {
        let decl = self.apcs.as_slice().get(apc.0 as usize)?;
        decl.rundown
    }

    /// The commands of a routine; none where there is no such routine.
    fn commands_of(&self, routine: Option<RoutineNo>) -> &[Command]
        ensures { result.now ≡ routines.commands_of self.now routine }
    {
        match routine {
            Some(routine) => match self.routines.as_slice().get(routine.0 as usize) {
                Some(routine) => routine.commands.as_slice(),
                None => &[],
            },
            None => &[],
        }
    }

    /// The routine of a frame, of an APC by its phase; an interrupt for which the script has no
    /// line has none.
    pub fn routine_of(&self, cpu: CpuNo, body: &Body, kernel_phase: bool) -> Option<RoutineNo>
        ensures { result ≡ routines.routine_of self.now cpu body.now kernel_phase }
    {
        match body {
            Body::Int(level) => self.isr_of(cpu, *level),
            Body::Dpc(dpc) | Body::Threaded(dpc) => {
                let decl = self.dpcs.as_slice().get(dpc.0 as usize)?;
                Some(decl.routine)
            }
            Body::Apc(apc, _) => {
                let decl = self.apcs.as_slice().get(apc.0 as usize)?;
                if kernel_phase {
                    Some(decl.kernel)
                } else {
                    decl.normal
                }
            }
            Body::Base(thread) => {
                let decl = self.threads.as_slice().get(thread.0 as usize)?;
                Some(decl.routine)
            }
            Body::Rundown(apc) => self.rundown_of(*apc),
        }
    }

    /// The command at this place in the routine of a frame, of an APC by its phase; None where the
    /// routine has no more.
    pub fn command_at(
        &self,
        cpu: CpuNo,
        body: &Body,
        kernel_phase: bool,
        place: u32,
    ) -> Option<Command>
        ensures { result ≡ routines.command_at self.now cpu body.now kernel_phase place }
    {
        let routine = self.routine_of(cpu, body, kernel_phase);
        self.commands_of(routine).get(place as usize).copied()
    }
}

impl Lane {
    /// The lane's number, from 0, in the order in which lanes are taken: objects, queues, threads,
    /// timers, spin locks.
    pub fn number(self, script: &Script) -> usize
        requires { lanes.lane_number script.now self < 2 ^ 32 }
        ensures { result ≡ lanes.lane_number script.now self }
    {
        let objects = script.dpcs.len();
        let cpus = usize::from(script.cpus);
        match self {
            Lane::Object(d) => usize::from(d.0),
            Lane::Queue(p) => objects + usize::from(p.0),
            Lane::Threads(p) => objects + (cpus + usize::from(p.0)),
            Lane::Timers => objects + (cpus + cpus),
            Lane::Lock(k) => objects + (cpus + (cpus + (1 + usize::from(k.0)))),
        }
    }
}
