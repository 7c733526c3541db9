//! Which locks an act takes.
ghost use Rattle.std.specs.Prelude.{◌≡◌};
ghost use Rattle.nt_lane.specs.Needed.{IsNeeded, with_lane, with_lanes};
ghost use Rattle.nt_states.specs.Reads.{AreHeld, job_lanes, reply_lanes};

use nt_event::{Command, CpuNo, DpcNo, Job, Lane, LockNo, Script};
use nt_frame::StandView;

/// The lanes whose locks an act takes, in the order of the locks: at most one of each kind.
#[derive(Clone, Copy, PartialEq, Eq, Debug)]
pub(crate) struct Needs {
    pub(crate) object: Option<DpcNo>,
    pub(crate) queue: Option<CpuNo>,
    pub(crate) group: Option<CpuNo>,
    pub(crate) timers: bool,
    pub(crate) spin_lock: Option<LockNo>,
}

impl Needs {
    ghost use Rattle.nt_lane.specs.Needed.{no_needs};

    /// No lock at all.
    pub(crate) fn none() -> Needs
        ensures { result ≡ no_needs }
    {
        Needs {
            object: None,
            queue: None,
            group: None,
            timers: false,
            spin_lock: None,
        }
    }

    /// The same with this lane, in place of another of its kind.
    pub(crate) fn with(self, lane: Lane) -> Needs
        ensures { result ≡ with_lane self lane }
    {
        let mut needs = self;
        match lane {
            Lane::Object(d) => needs.object = Some(d),
            Lane::Queue(p) => needs.queue = Some(p),
            Lane::Threads(p) => needs.group = Some(p),
            Lane::Timers => needs.timers = true,
            Lane::Lock(k) => needs.spin_lock = Some(k),
        }
        needs
    }

    /// The same with each of these lanes.
    pub(crate) fn with_all(self, lanes: &[Lane]) -> Needs
        ensures { result ≡ with_lanes self lanes.now }
    {
        let mut needs = self;
        for lane in lanes {
            needs = needs.with(*lane);
        }
        needs
    }
}

/// This lane alone.
fn one(lane: Lane) -> Needs
    ensures { IsNeeded result lane }
{
    Needs::none().with(lane)
}

/// What a command of a routine on the processor reads before its reply is known.
fn needs_of_command(script: &Script, cpu: CpuNo, command: &Command) -> Needs
    ensures { AreHeld (IsNeeded result) (reply_lanes script.now cpu command.now) }
{
    match command {
        Command::Queue(d) | Command::Unqueue(d) => one(Lane::Object(*d)),
        Command::SetTimer(_, _, _) | Command::CancelTimer(_) => one(Lane::Timers),
        Command::InsertApc(a) | Command::RemoveApc(a) => {
            one(Lane::Threads(script.cpu_of(script.owner_of(*a))))
        }
        Command::Release(t) | Command::Alert(t, _) => one(Lane::Threads(script.cpu_of(*t))),
        Command::StartWait(_, _) | Command::TestAlert(_) => one(Lane::Threads(cpu)),
        Command::Delay(_, _, _) => Needs::none().with(Lane::Threads(cpu)).with(Lane::Timers),
        Command::Acquire(k) => one(Lane::Lock(*k)),
        Command::Raise(_)
        | Command::Lower(_)
        | Command::SetImportance(_, _)
        | Command::SetTarget(_, _)
        | Command::EnterCrit
        | Command::LeaveCrit
        | Command::EnterGuard
        | Command::LeaveGuard
        | Command::Interrupt(_, _)
        | Command::Clock(_)
        | Command::ToUser
        | Command::Yield
        | Command::Unlock(_)
        | Command::Note(_) => Needs::none(),
    }
}

/// What a job of a processor that stands so reads before its event is known.
pub(crate) fn needs_of_job(script: &Script, job: &Job, stand: &StandView) -> Needs
    ensures { AreHeld (IsNeeded result) (job_lanes script.now stand.now job.now) }
{
    let queue = Lane::Queue(stand.cpu());
    let threads = Lane::Threads(stand.cpu());
    match job {
        Job::Call(command) => needs_of_command(script, stand.cpu(), command),
        Job::Fire(d) => one(Lane::Object(*d)),
        Job::Drain => {
            if stand.sweep() {
                one(queue).with(Lane::Timers)
            } else {
                one(queue)
            }
        }
        Job::Threaded => one(queue),
        Job::Idle | Job::Pick(_) => Needs::none().with(queue).with(threads),
        Job::Rewait => {
            if stand.has_due() {
                one(threads).with(Lane::Timers)
            } else {
                one(threads)
            }
        }
        Job::Apcs | Job::Switch(_) | Job::ToUser | Job::Rundown => one(threads),
        Job::Free(_) | Job::UserEnd | Job::Leave => Needs::none(),
    }
}
