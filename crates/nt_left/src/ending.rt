//! A machine at the end of a run.
use nt_cpu::Cpu;
use nt_event::{CpuNo, Script, ThreadNo};
use nt_frame::Frame;
use nt_history::Briefs;
use nt_plain::PlainFloor;
use nt_thread::ThreadState;

/// The processors and the floor of a script behind the events of a run.
#[derive(Clone, Copy)]
pub(crate) struct End<'a, 's> {
    pub script: &'a Script,
    /// How many events each processor may make.
    pub limit: u32,
    /// The processors, in the order of their numbers.
    pub cpus: &'a [Cpu<'s>],
    pub floor: &'a PlainFloor<'s>,
    pub events: Briefs<'a>,
}

impl<'a, 's> End<'a, 's> {
    ghost use Rattle.std.specs.Prelude.{◌≡◌, IsTrue, reverse};
    ghost use Rattle.nt_event.specs.Frames.{thread_frames};
    ghost use Rattle.nt_event.specs.Own.{own_of};
    ghost use Rattle.nt_event.specs.Script.{has_cpu, has_thread};
    ghost use Rattle.nt_event.specs.Waits.{facts};
    ghost use Rattle.nt_left.specs.Ending.{IsEnd};
    ghost use Rattle.nt_left.specs.Walks.{past_of};

    /// The processor of this number.
    pub(crate) fn cpu(&self, cpu: CpuNo) -> &'a Cpu<'s>
        requires end { IsEnd self.now }
        requires cpu { IsTrue (has_cpu self.now.script.now cpu) }
        ensures { result.now.own ≡ own_of self.now.script.now cpu (past_of self.now.events) }
    {
        let cpus = self.cpus;
        let place = usize::from(cpu.0);
        &cpus[place]
    }

    /// The state of this thread.
    pub(crate) fn thread(&self, thread: ThreadNo) -> &'a ThreadState
        requires end { IsEnd self.now }
        requires thread { IsTrue (has_thread self.now.script.now thread) }
        ensures { result.now ≡ facts self.now.script.now thread (past_of self.now.events) }
    {
        let floor = self.floor;
        let states = floor.threads().states();
        let place = usize::from(thread.0);
        &states[place]
    }

    /// The frames of this thread on the processor, the outermost first.
    pub(crate) fn frames(&self, cpu: CpuNo, thread: ThreadNo) -> &'a [Frame]
        requires end { IsEnd self.now }
        requires cpu { IsTrue (has_cpu self.now.script.now cpu) }
        requires thread { IsTrue (has_thread self.now.script.now thread) }
        ensures { reverse result.now
            ≡ thread_frames self.now.script.now cpu thread (past_of self.now.events) }
    {
        self.cpu(cpu).frames().of_thread(thread)
    }
}
