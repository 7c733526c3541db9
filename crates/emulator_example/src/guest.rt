//! What an emulator keeps of its guest, and what happens in it, by the parts' calls.
ghost use Rattle.std.specs.Prelude.{◌≡◌, IsSome, IsTrue, Some, false, length, option_map};
ghost use Rattle.nt_event.specs.declared.inserts.Part.TheVariants.{Ordinary};
ghost use Rattle.nt_dpc.specs.Queues.{first_entry};
ghost use Rattle.nt_frame.specs.Nesting.{AreNamedBelow};
ghost use Rattle.nt_frame.specs.Rules.{is_at_base, may_begin};
ghost use Rattle.nt_event.specs.Frames.{innermost};
ghost use Rattle.emulator_example.specs.Ours.{IsOurs};

use nt_dpc::{DpcObject, DpcQueue, Inserted};
use nt_event::{ApcKind, ApcNo, Body, CpuNo, DpcNo, Part, TimerNo};
use nt_frame::Frames;
use nt_level::Level;
use nt_thread::{ApcAnswer, Mode, Regions, ThreadState, WaitAnswer, WaitSpec};
use nt_timer::TimerQueue;
use std::alloc::{AllocError, Global};
use std::marker::Model;

/// While the time is below this one, it can go on by any number of units.
const LAST_TIME: u64 = (1 << 50) - (1 << 32);

/// One processor of the guest: its frames, a timer with its DPC object, the processor's DPC queue,
/// and one thread.
#[derive(Drop)]
pub(crate) struct Guest {
    frames: Frames,
    timers: TimerQueue,
    queue: DpcQueue,
    dpc: DpcObject,
    thread: ThreadState,
    /// The number of the next event. All frames are named by lesser ones.
    next: u64,
}

impl Model for Guest {
    ghost use Rattle.std.specs.Prelude.{◌≡◌, length};
    ghost use Rattle.nt_frame.specs.Nesting.{AreNamedBelow};
    ghost use Rattle.emulator_example.specs.Ours.{IsOurs};

    ghost Value = { Unit {0} };

    ghost view = { λ a. tt };

    ghost invariant = { λ a.
        AreNamedBelow a.next a.frames × IsOurs a.queue a.dpc × (length a.timers.timers ≡ 1) };
}

/// A routine begins, where the rules let it, in a frame that the next number names. False where the
/// numbers are used up.
fn begin(frames: &mut Frames, next: &mut u64, body: Body) -> bool
    requires rules { IsTrue (may_begin body frames.old) }
    requires named { AreNamedBelow next.old frames.old }
    ensures named { AreNamedBelow next.new frames.new }
{
    let Some(after) = next.checked_add(1) else {
        return false;
    };
    frames.begin(body, *next);
    *next = after;
    true
}

/// Whether a routine runs that may end: one that is no thread's base.
fn is_in_routine(frames: &Frames) -> bool
    ensures { IsTrue result → IsSome (innermost frames.now) × (is_at_base frames.now ≡ false) }
{
    match frames.top() {
        Some(frame) => !matches!(frame.body(), Body::Base(_)),
        None => false,
    }
}

/// Whether the object's entry is the first one in the queue.
fn is_first(queue: &DpcQueue, dpc: &DpcObject) -> bool
    ensures { IsTrue result →
        option_map (λ x. x.0) (first_entry Ordinary queue.now) ≡ Some dpc.now.dpc }
{
    match queue.first(Part::Ordinary) {
        Some((first, _)) => first.0 == dpc.no().0,
        None => false,
    }
}

/// Each timer that is due expires, and inserts its DPC. Whether one did.
fn expire_all(timers: &mut TimerQueue, queue: &mut DpcQueue, dpc: &mut DpcObject, n: u64) -> bool
    requires ours { IsOurs queue.old dpc.old }
    ensures ours { IsOurs queue.new dpc.new }
    ensures timers { length timers.new.timers ≡ length timers.old.timers }
{
    let mut expired = false;
    while let Some(_) = timers.expire_first(n) {
        queue.insert(dpc, CpuNo(0), n);
        expired = true;
    }
    expired
}

/// All routines end but a thread's base.
fn end_all(frames: &mut Frames, n: u64)
    requires named { AreNamedBelow n frames.old }
    ensures named { AreNamedBelow n frames.new }
{
    while is_in_routine(frames) {
        frames.finish();
    }
}

/// Each entry of the object leaves the queue.
fn take_all(queue: &mut DpcQueue, dpc: &mut DpcObject)
    requires ours { IsOurs queue.old dpc.old }
    ensures ours { IsOurs queue.new dpc.new }
{
    while is_first(queue, dpc) {
        queue.take(Part::Ordinary, dpc);
    }
}

/// Each user APC of the thread is flushed.
fn flush_all(thread: &mut ThreadState) {
    while let Some(_) = thread.flush() {}
}

impl Guest {
    /// A guest whose thread runs, and in which nothing happened.
    pub(crate) fn new(alloc: Global) -> Result<Guest, AllocError> {
        let mut thread = ThreadState::new(alloc, 1)?;
        if thread.is_ready() {
            thread.resume();
        }
        Ok(Guest {
            frames: Frames::new(alloc, CpuNo(0), 0)?,
            timers: TimerQueue::new(alloc, 1, 0)?,
            queue: DpcQueue::new(alloc, CpuNo(0), 1, 4)?,
            dpc: DpcObject::new(DpcNo(0), false),
            thread,
            next: 0,
        })
    }

    /// The processor's level.
    pub(crate) fn level(&self) -> Level {
        self.frames.level()
    }

    /// A device interrupts: its routine begins where its level is above the processor's.
    pub(crate) fn interrupt(&mut self, level: Level) -> bool {
        level.is_device()
            && self.frames.level().allows(level)
            && begin(&mut self.frames, &mut self.next, Body::Int(level))
    }

    /// The innermost routine ends. False where none runs.
    pub(crate) fn end(&mut self) -> bool {
        let ends = is_in_routine(&self.frames);
        if ends {
            self.frames.finish();
        }
        ends
    }

    /// The guest calls KeInsertQueueDpc.
    pub(crate) fn queue(&mut self) -> Inserted {
        self.queue.insert(&mut self.dpc, CpuNo(0), self.next)
    }

    /// The routine of the DPC begins, where it is queued and the level lets it. Answers the number
    /// of the insert.
    pub(crate) fn dispatch(&mut self) -> Option<u64> {
        let begins = is_first(&self.queue, &self.dpc)
            && self.frames.level().allows(Level::DISPATCH)
            && begin(&mut self.frames, &mut self.next, Body::Dpc(DpcNo(0)));
        if begins {
            Some(self.queue.take(Part::Ordinary, &mut self.dpc))
        } else {
            None
        }
    }

    /// The guest calls KeSetTimer, with the DPC. True where the timer was set.
    pub(crate) fn set(&mut self, units: u32) -> bool {
        self.timers.set(TimerNo(0), units, 0, self.next).was
    }

    /// The clock ticks: each timer that is due expires, and inserts its DPC. Whether one did.
    pub(crate) fn tick(&mut self, units: u32) -> bool {
        if self.timers.now() < LAST_TIME {
            self.timers.advance(units);
        }
        expire_all(&mut self.timers, &mut self.queue, &mut self.dpc, self.next)
    }

    /// The guest's thread waits: in kernel mode, not alertable, in no region.
    pub(crate) fn wait(&mut self) -> WaitAnswer {
        let spec = WaitSpec {
            mode: Mode::Kernel,
            alertable: false,
            reached: None,
            set: self.next,
        };
        let regions = Regions {
            crit: 0,
            guard: 0,
            busy: false,
        };
        self.thread.wait(spec, regions, self.frames.level())
    }

    /// The thread's wait is over.
    pub(crate) fn release(&mut self) -> bool {
        self.thread.release()
    }

    /// The guest's thread is taken up, where it is ready. Answers the status of the wait that
    /// ended.
    pub(crate) fn resume(&mut self) -> Option<u32> {
        if self.thread.is_ready() {
            self.thread.resume()
        } else {
            None
        }
    }

    /// The guest calls KeInsertQueueApc: a user APC for the thread.
    pub(crate) fn apc(&mut self, a: u8) -> ApcAnswer {
        self.thread
            .apc(ApcNo(u16::from(a)), ApcKind::User, self.next)
    }

    /// The machine is switched off: the routines end, the DPC leaves its queue, and the thread ends
    /// without its user APCs.
    pub(crate) fn switch_off(&mut self) {
        end_all(&mut self.frames, self.next);
        take_all(&mut self.queue, &mut self.dpc);
        self.thread.leave();
        flush_all(&mut self.thread);
    }
}
