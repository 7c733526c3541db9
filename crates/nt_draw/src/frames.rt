//! The frames that are open while a run goes on: which routines have begun and not ended.
use nt_event::{ApcNo, Begun, Command, CpuNo, Level, Reply, Script, ThreadNo};
use nt_history::{Brief, Did};
use std::alloc::{AllocError, Global};

/// What runs in a frame.
#[derive(Clone, Copy, PartialEq, Eq)]
pub(crate) enum Kind {
    Thread,
    Interrupt,
    Dpc,
    ThreadedDpc,
    Apc,
}

/// A routine that has begun and not ended.
#[derive(Clone, Copy)]
pub(crate) struct Frame {
    pub cpu: CpuNo,
    /// The thread that it runs on; None on the processor's own part.
    pub thread: Option<ThreadNo>,
    /// The number of the event that began it.
    pub number: u32,
    pub kind: Kind,
    pub level: Level,
    /// Whether its last call spins.
    pub spins: bool,
}

/// The frames that are open, in the order in which they began, and which thread runs where. So of
/// the frames on a processor each one is inside those before it.
#[derive(Drop)]
pub(crate) struct Frames {
    pub open: Vec<Frame>,
    /// By processor.
    running: Vec<Option<ThreadNo>>,
}

/// The kind of what begins, and whether it runs on the thread.
fn kind_of(begun: &Begun) -> (Kind, bool) {
    match begun {
        Begun::Int(_) => (Kind::Interrupt, false),
        Begun::Dpc(_) => (Kind::Dpc, false),
        Begun::Threaded(_) => (Kind::ThreadedDpc, false),
        Begun::Apc(_) => (Kind::Apc, true),
    }
}

/// Whether the thread no longer runs after a call with this reply.
fn stops(command: &Command, reply: &Reply) -> bool {
    match reply {
        Reply::Blocked => true,
        Reply::Done => matches!(command, Command::Yield),
        Reply::Yes | Reply::No | Reply::Status(_) | Reply::Spin | Reply::Refused(_) => false,
    }
}

impl Frames {
    /// No frame of a script with so many processors.
    pub(crate) fn new(alloc: Global, cpus: u8) -> Result<Frames, AllocError> {
        Ok(Frames {
            open: Vec::new(alloc),
            running: vec![in alloc; None; cpus as usize]?,
        })
    }

    /// The thread that runs on a processor.
    fn runs(&self, cpu: CpuNo) -> Option<ThreadNo> {
        match self.running.get(cpu.0 as usize) {
            Some(thread) => *thread,
            None => None,
        }
    }

    fn run(&mut self, cpu: CpuNo, thread: Option<ThreadNo>) {
        if let Some(running) = self.running.get_mut(cpu.0 as usize) {
            *running = thread;
        }
    }

    /// Whether the frame stands on its processor now: on its own part, or on the thread that runs.
    pub(crate) fn stands(&self, frame: &Frame) -> bool {
        match frame.thread {
            None => true,
            Some(thread) => self.runs(frame.cpu) == Some(thread),
        }
    }

    /// The frame that this event of the processor began, where it is open.
    pub(crate) fn find(&self, cpu: CpuNo, number: u32) -> Option<Frame> {
        for frame in self.open.as_slice() {
            if frame.cpu == cpu && frame.number == number {
                return Some(*frame);
            }
        }
        None
    }

    /// How many frames stand on a processor.
    pub(crate) fn depth(&self, cpu: CpuNo) -> u32 {
        let mut depth: u32 = 0;
        for frame in self.open.as_slice() {
            if frame.cpu == cpu && self.stands(frame) {
                depth = depth.saturating_add(1);
            }
        }
        depth
    }

    /// The level of a processor: that of its innermost frame, or PASSIVE_LEVEL.
    pub(crate) fn level(&self, cpu: CpuNo) -> Level {
        let mut level = Level::PASSIVE;
        for frame in self.open.as_slice() {
            if frame.cpu == cpu && self.stands(frame) {
                level = frame.level;
            }
        }
        level
    }

    /// Whether a frame of the thread is open.
    fn has_begun(&self, thread: ThreadNo) -> bool {
        for frame in self.open.as_slice() {
            if frame.thread == Some(thread) {
                return true;
            }
        }
        false
    }

    fn push(
        &mut self,
        number: u32,
        event: &Brief,
        kind: Kind,
        thread: Option<ThreadNo>,
    ) -> Result<(), AllocError> {
        self.open.push(Frame {
            cpu: event.cpu,
            thread,
            number,
            kind,
            level: event.level,
            spins: false,
        })?;
        Ok(())
    }

    /// A thread is taken up; its base frame begins the first time.
    fn switch(&mut self, number: u32, event: &Brief, thread: ThreadNo) -> Result<(), AllocError> {
        self.run(event.cpu, Some(thread));
        if self.has_begun(thread) {
            return Ok(());
        }
        self.push(number, event, Kind::Thread, Some(thread))
    }

    /// A frame ends. A base frame stays until its thread is gone.
    fn end(&mut self, number: u64) {
        self.open.retain(|frame| u64::from(frame.number) != number || frame.kind == Kind::Thread);
    }

    /// A frame calls, and spins or doesn't.
    fn call(&mut self, number: u64, spins: bool) {
        for frame in self.open.as_mut_slice() {
            if u64::from(frame.number) == number {
                frame.spins = spins;
            }
        }
    }

    /// Notes that the innermost frame of the processor is at this level.
    fn set_level(&mut self, cpu: CpuNo, level: Level) {
        let mut innermost = None;
        for (place, frame) in self.open.iter().enumerate() {
            if frame.cpu == cpu && self.stands(frame) {
                innermost = Some(place);
            }
        }
        if let Some(place) = innermost {
            if let Some(frame) = self.open.get_mut(place) {
                frame.level = level;
            }
        }
    }

    /// What begins, on the processor's own part or in its thread.
    fn begin(&mut self, number: u32, event: &Brief, begun: &Begun) -> Result<(), AllocError> {
        let (kind, on_thread) = kind_of(begun);
        let thread = if on_thread {
            self.runs(event.cpu)
        } else {
            None
        };
        self.push(number, event, kind, thread)
    }

    /// A flushed APC begins a frame where it has a rundown routine.
    fn flush(
        &mut self,
        script: &Script,
        number: u32,
        event: &Brief,
        apc: ApcNo,
    ) -> Result<(), AllocError> {
        if script.rundown_of(apc).is_some() {
            let thread = self.runs(event.cpu);
            self.push(number, event, Kind::Apc, thread)?;
        }
        Ok(())
    }

    /// A thread that is gone has no frames.
    fn leave(&mut self, cpu: CpuNo, thread: ThreadNo) {
        self.open.retain(|frame| frame.thread != Some(thread));
        self.run(cpu, None);
    }

    /// What the event of this number leaves of the frames, but for levels.
    fn apply(&mut self, script: &Script, number: u32, event: &Brief) -> Result<(), AllocError> {
        match &event.did {
            Did::Call {
                frame,
                command,
                reply,
            } => {
                self.call(*frame, matches!(reply, Reply::Spin));
                if stops(command, reply) {
                    self.run(event.cpu, None);
                }
            }
            Did::Begin { begun, .. } => self.begin(number, event, begun)?,
            Did::End { frame } => self.end(*frame),
            Did::Switch { thread, .. } => self.switch(number, event, *thread)?,
            Did::Rewait { reply, .. } => {
                if matches!(reply, Reply::Blocked) {
                    self.run(event.cpu, None);
                }
            }
            Did::Flush { apc, .. } => self.flush(script, number, event, *apc)?,
            Did::Gone { thread } => self.leave(event.cpu, *thread),
            Did::Look { .. }
            | Did::Normal { .. }
            | Did::Expire { .. }
            | Did::Fire { .. }
            | Did::Clean { .. }
            | Did::Free { .. }
            | Did::Rest => {}
        }
        Ok(())
    }

    /// Follows the event of this number. The level of a processor is that of its innermost frame.
    pub(crate) fn follow(
        &mut self,
        script: &Script,
        number: u32,
        event: &Brief,
    ) -> Result<(), AllocError> {
        self.apply(script, number, event)?;
        if !matches!(event.did, Did::Look { .. }) {
            self.set_level(event.cpu, event.level);
        }
        Ok(())
    }
}
