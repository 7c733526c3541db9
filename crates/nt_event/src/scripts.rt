//! Scripts: what is declared, and when a script fits.
use crate::fitting::{
    apcs_fit, dpcs_fit, isr_in, isrs_differ, isrs_fit, meets_limits, routines_fit, threads_fit,
    timers_fit,
};
use crate::{ApcKind, Command, CpuNo, DpcNo, Items, RoutineNo, ThreadNo};
use nt_level::Level;

/// The routine of an interrupt on a processor.
#[derive(Clone, Copy, PartialEq, Eq, Debug)]
pub struct Isr {
    pub cpu: CpuNo,
    pub level: Level,
    pub routine: RoutineNo,
}

/// A DPC object and its routine.
#[derive(Clone, Copy, PartialEq, Eq, Debug)]
pub struct DpcDecl {
    /// Whether it runs in a system thread at PASSIVE_LEVEL where threaded DPCs are on
    /// (KeInitializeThreadedDpc).
    pub threaded: bool,
    pub routine: RoutineNo,
}

/// A timer and the DPC object that its expiry inserts, if any.
#[derive(Clone, Copy, PartialEq, Eq, Debug)]
pub struct TimerDecl {
    pub dpc: Option<DpcNo>,
}

/// A thread, the processor that it is bound to, and its base routine.
#[derive(Clone, Copy, PartialEq, Eq, Debug)]
pub struct ThreadDecl {
    pub cpu: CpuNo,
    pub routine: RoutineNo,
}

/// An APC object, its thread and its routines.
#[derive(Clone, Copy, PartialEq, Eq, Debug)]
pub struct ApcDecl {
    pub kind: ApcKind,
    pub thread: ThreadNo,
    pub kernel: RoutineNo,
    /// The routine after the kernel routine, of a normal or user APC.
    pub normal: Option<RoutineNo>,
    /// The routine that runs in place of the delivery where the thread ends first, of a user APC.
    pub rundown: Option<RoutineNo>,
}

/// The commands of a routine, in order.
#[derive(Drop, Debug)]
pub struct Routine {
    pub commands: Items<Command>,
}

/// What a driver writer declares. The numbers of things are their places in these lists.
#[derive(Drop, Debug)]
pub struct Script {
    /// How many processors there are.
    pub cpus: u8,
    /// The depth limit of the DPC queues, where one is set; else it is the usual one.
    pub depth: Option<u32>,
    /// Whether threaded DPCs are on, where it is said; else they are.
    pub threaded: Option<bool>,
    pub isrs: Items<Isr>,
    pub dpcs: Items<DpcDecl>,
    pub timers: Items<TimerDecl>,
    pub threads: Items<ThreadDecl>,
    pub apcs: Items<ApcDecl>,
    pub routines: Items<Routine>,
    /// How many spin locks there are.
    pub locks: u16,
}

impl Script {
    ghost use Rattle.std.specs.Prelude.{◌≡◌};
    ghost use Rattle.nt_event.specs.Script as spec;

    /// The routine of the interrupt of a level on a processor, None exactly where the script
    /// declares none.
    pub fn isr_of(&self, cpu: CpuNo, level: Level) -> Option<RoutineNo>
        ensures { result ≡ spec.isr_of self.now.isrs cpu level }
    {
        isr_in(self.isrs.as_slice(), cpu, level)
    }

    /// Whether the script meets the limits and each number in it names a thing of its list.
    ///
    /// The limits are 1 to 64 processors, 64 threads, 64 timers, 64 spin locks, 256 DPC objects,
    /// 256 APC objects, 256 routines, 8,192 commands in all and a depth limit of at most 256.
    /// Interrupt routines are for levels 3 to 11, 13 and 14, at most one a processor and level;
    /// `interrupt` requests a level of 3 to 11 or 14. An APC object has a normal routine exactly
    /// where it is normal or user, and only a user one may have a rundown routine.
    pub fn fits(&self) -> bool
        ensures { result ≡ spec.fits self.now }
    {
        meets_limits(self)
            && isrs_fit(self, self.isrs.as_slice())
            && isrs_differ(self.isrs.as_slice())
            && dpcs_fit(self, self.dpcs.as_slice())
            && timers_fit(self, self.timers.as_slice())
            && threads_fit(self, self.threads.as_slice())
            && apcs_fit(self, self.apcs.as_slice())
            && routines_fit(self, self.routines.as_slice())
    }
}
