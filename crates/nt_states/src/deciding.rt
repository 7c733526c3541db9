//! The event of a job, written where the caller keeps it.
ghost use Rattle.std.specs.Prelude.{◌≡◌, IfErr, IfOk, IsErrOf, IsSome, IsTrue, OnErr, OnOk, false};
ghost use Rattle.std.specs.Prelude.{if◌then◌else◌, not, option_map, true, unwrap_or};
ghost use Rattle.nt_event.specs.Acting.{IsCallable};
ghost use Rattle.nt_event.specs.Commands.{is_reached};
ghost use Rattle.nt_event.specs.Fitting.{what_fits};
ghost use Rattle.nt_event.specs.Jobs as jobs;
ghost use Rattle.nt_event.specs.Lanes.{object_at, queue_at};
ghost use Rattle.nt_event.specs.Objects.{is_queued};
ghost use Rattle.nt_event.specs.Replies.{yes_if};
ghost use Rattle.nt_event.specs.Routines.{cpu_of};
ghost use Rattle.nt_event.specs.Script.{command_fits, has_apc, has_cpu, has_dpc, has_thread};
ghost use Rattle.nt_event.specs.Timers.{first_due};
ghost use Rattle.nt_event.specs.Lists.{is_null};
ghost use Rattle.nt_event.specs.declared.jobs.Job.{Job};
ghost use Rattle.nt_event.specs.declared.jobs.Lane.TheVariants.{Object as ObjectLane};
ghost use Rattle.nt_event.specs.declared.jobs.Lane.TheVariants.{Queue as QueueLane};
ghost use Rattle.nt_event.specs.declared.jobs.Lane.TheVariants.{Threads as ThreadsLane};
ghost use Rattle.nt_event.specs.declared.jobs.Lane.TheVariants.{Timers as TimersLane};
ghost use Rattle.nt_event.specs.declared.inserts.Part.{Part as PartOf};
ghost use Rattle.nt_event.specs.declared.scripts.Script.{Script};
ghost use Rattle.nt_event.specs.declared.events.What.{What};
ghost use Rattle.nt_event.specs.Acts.{Found, IsRefused, StandFits};
ghost use Rattle.nt_event.specs.declared.acts.ActRefusal.{ActRefusal};
ghost use Rattle.nt_states.specs.Given.{CanDecide, IsGiven, RunsOwn, TakesOwn};
ghost use Rattle.nt_states.specs.Reads.{AreHeld, job_lanes, reply_lanes};

use crate::answers::LaneAnswers;
use crate::replying::{reply, wait_reply};
use crate::running::runner;
use crate::thread_answers::ThreadAnswers;
use nt_event::{
    ActRefusal, Begun, Command, CpuNo, DpcNo, Job, Part, Pick, Reply, ThreadNo, What, class,
};
use nt_frame::StandView;

/// Writes that a DPC of the part begins.
fn begin_dpc(part: Part, dpc: DpcNo, from: u64, into: &mut What)
    ensures { into.new
        ≡ jobs.begin_dpc part (record { dpc = dpc; number = from; part = part; high = false }) }
{
    let begun = match part {
        Part::Ordinary => Begun::Dpc(dpc),
        Part::Threaded => Begun::Threaded(dpc),
    };
    *into = What::Begin { begun, from };
}

/// Writes that an APC begins.
fn begin_apc(pick: &Pick, into: &mut What)
    ensures event { into.new ≡ jobs.begin_apc pick.now }
    ensures named { (s : Script) → IsTrue (has_apc s pick.now.apc) → IsTrue (what_fits s into.new) }
{
    *into = What::Begin {
        begun: Begun::Apc(pick.apc),
        from: pick.number,
    };
}

/// The event of the job for a processor that stands so, in the states of the lanes that it reads:
/// what [`decide_into`] writes.
///
/// NothingToDo comes where it is idle, with no ordinary DPC and a ready thread; BadChoice where the
/// thread is not its own, or not ready. NoMemory never comes.
pub fn decide<S: LaneAnswers>(states: &S, job: &Job, stand: &StandView) -> Result<What, ActRefusal>
    requires can { CanDecide (S.script_of states.now) stand.now job.now }
    requires held { AreHeld (S.holds states.now)
        (job_lanes (S.script_of states.now) stand.now job.now) }
    ensures event { IfOk result (λ w.
        jobs.job_event (S.script_of states.now) stand.now (S.lanes states.now) job.now ≡ Some w) }
    ensures given { IfOk result
        (λ w. IsGiven (S.script_of states.now) (S.lanes states.now) stand.now w) }
    ensures refused { IfErr result (λ r.
        (f : Found) → f.lanes ≡ (S.lanes states.now) →
        IsRefused (S.script_of states.now) f stand.now job.now r) }
    ensures memory { IsErrOf result ActRefusal.NoMemory → ⊥ }
{
    let mut what = What::Rest;
    decide_into(states, job, stand, &mut what)?;
    Ok(what)
}

/// Writes the event of the job where the caller keeps it, for a processor that stands so, in the
/// states of the lanes that it reads.
///
/// NothingToDo comes where it is idle, with no ordinary DPC and a ready thread; BadChoice where the
/// thread is not its own, or not ready. NoMemory never comes. After a refusal nothing was written.
#[inline(always)]
pub fn decide_into<S: LaneAnswers>(
    states: &S,
    job: &Job,
    stand: &StandView,
    into: &mut What,
) -> Result<(), ActRefusal>
    requires can { CanDecide (S.script_of states.now) stand.now job.now }
    requires held { AreHeld (S.holds states.now)
        (job_lanes (S.script_of states.now) stand.now job.now) }
    ensures event { OnOk result
        (jobs.job_event (S.script_of states.now) stand.now (S.lanes states.now) job.now
        ≡ Some into.new) }
    ensures given { OnOk result
        (IsGiven (S.script_of states.now) (S.lanes states.now) stand.now into.new) }
    ensures refused { IfErr result (λ r.
        (f : Found) → f.lanes ≡ (S.lanes states.now) →
        IsRefused (S.script_of states.now) f stand.now job.now r) }
    ensures unwritten { OnErr result (into.new ≡ into.old) }
    ensures memory { IsErrOf result ActRefusal.NoMemory → ⊥ }
{
    match job {
        Job::Call(command) => call(states, stand, command, into),
        Job::Fire(dpc) => fire(states, *dpc, into),
        Job::Free(lock) => *into = What::Free {
            frame: stand.frame(),
            lock: *lock,
        },
        Job::Drain => drain(states, stand, into),
        Job::Apcs => apcs(states, stand, into),
        Job::Threaded => threaded(states, stand, into),
        Job::Idle => idle(states, stand, into)?,
        Job::Pick(last) => pick(states, stand, *last, into),
        Job::Switch(thread) => switch(states, stand, *thread, into)?,
        Job::Rewait => rewait(states, stand, into),
        Job::ToUser => to_user(states, stand, into),
        Job::UserEnd | Job::Leave => *into = What::End {
            frame: stand.frame(),
        },
        Job::Rundown => rundown(states, stand, into),
    }
    Ok(())
}

/// Writes that a routine calls the command.
fn call<S: LaneAnswers>(states: &S, stand: &StandView, command: &Command, into: &mut What)
    requires command { IsTrue (command_fits (S.script_of states.now) command.now) }
    requires stand { StandFits (S.script_of states.now) stand.now }
    requires own { RunsOwn (S.script_of states.now) stand.now }
    requires callable { IsCallable stand.now command.now }
    requires held { AreHeld (S.holds states.now)
        (reply_lanes (S.script_of states.now) stand.now.cpu command.now) }
    ensures event { jobs.job_event (S.script_of states.now) stand.now (S.lanes states.now)
        (Job.Call command.now)
        ≡ Some into.new }
    ensures named { IsTrue (what_fits (S.script_of states.now) into.new) }
{
    *into = What::Call {
        frame: stand.frame(),
        command: *command,
        reply: reply(states, stand, command),
    };
}

/// Writes that an expired timer inserts its DPC object.
fn fire<S: LaneAnswers>(states: &S, dpc: DpcNo, into: &mut What)
    requires object { IsTrue (has_dpc (S.script_of states.now) dpc) }
    requires held { S.holds states.now (ObjectLane dpc) }
    ensures event { into.new
        ≡ What.Fire dpc (yes_if (not (is_queued (object_at (S.lanes states.now) dpc)))) }
    ensures named { IsTrue (what_fits (S.script_of states.now) into.new) }
{
    *into = What::Fire {
        dpc,
        reply: Reply::yes_if(!states.is_queued(dpc)),
    };
}

/// Writes that the first DPC of the part begins. False exactly where there is none; then nothing
/// was written.
fn begin_first<S: LaneAnswers>(states: &S, part: Part, p: CpuNo, into: &mut What) -> bool
    requires cpu { IsTrue (has_cpu (S.script_of states.now) p) }
    requires queue { S.holds states.now (QueueLane p) }
    ensures event { jobs.begin_first part (queue_at (S.lanes states.now) p)
        ≡ (if result then Some into.new else None) }
    ensures named { result ≡ true → IsTrue (what_fits (S.script_of states.now) into.new) }
    ensures unwritten { result ≡ false → into.new ≡ into.old }
{
    match states.first(part, p) {
        Some((dpc, from)) => {
            begin_dpc(part, dpc, from, into);
            true
        }
        None => false,
    }
}

/// Writes that the first due key expires. False exactly where none is due; then nothing was
/// written.
fn expire_first<S: LaneAnswers>(states: &S, into: &mut What) -> bool
    requires { S.holds states.now TimersLane }
    ensures event { option_map jobs.expire_key (first_due (S.lanes states.now).timers)
        ≡ (if result then Some into.new else None) }
    ensures named { result ≡ true → IsTrue (what_fits (S.script_of states.now) into.new) }
    ensures unwritten { result ≡ false → into.new ≡ into.old }
{
    match states.first_due() {
        Some((key, from)) => {
            *into = What::Expire { key, from };
            true
        }
        None => false,
    }
}

/// Writes that the first due key expires, where a sweep is owed; else that the first ordinary DPC
/// begins, or that the class is served.
fn drain<S: LaneAnswers>(states: &S, stand: &StandView, into: &mut What)
    requires stand { StandFits (S.script_of states.now) stand.now }
    requires held { AreHeld (S.holds states.now)
        (job_lanes (S.script_of states.now) stand.now Job.Drain) }
    ensures event { into.new ≡ jobs.drain_event stand.now (S.lanes states.now) }
    ensures named { IsTrue (what_fits (S.script_of states.now) into.new) }
{
    if stand.sweep() && expire_first(states, into) {
        return;
    }
    if !begin_first(states, Part::Ordinary, stand.cpu(), into) {
        *into = What::Clean {
            class: class::DISPATCH,
        };
    }
}

/// Writes that the first kernel APC begins, where it is deliverable; else that the class is served.
fn apcs<S: LaneAnswers>(states: &S, stand: &StandView, into: &mut What)
    requires stand { StandFits (S.script_of states.now) stand.now }
    requires own { RunsOwn (S.script_of states.now) stand.now }
    requires runs { IsSome stand.now.thread }
    requires held { S.holds states.now (ThreadsLane stand.now.cpu) }
    ensures event { into.new ≡ jobs.apcs_event stand.now (S.lanes states.now) }
    ensures named { IsTrue (what_fits (S.script_of states.now) into.new) }
{
    match states
        .threads()
        .deliverable(runner(states, stand), stand.regions(), stand.level())
    {
        Some(pick) => begin_apc(&pick, into),
        None => *into = What::Clean { class: class::APC },
    }
}

/// Writes that the first threaded DPC begins, or that the class is served.
fn threaded<S: LaneAnswers>(states: &S, stand: &StandView, into: &mut What)
    requires stand { StandFits (S.script_of states.now) stand.now }
    requires queue { S.holds states.now (QueueLane stand.now.cpu) }
    ensures event { into.new ≡ jobs.threaded_event stand.now (S.lanes states.now) }
    ensures named { IsTrue (what_fits (S.script_of states.now) into.new) }
{
    if !begin_first(states, Part::Threaded, stand.cpu(), into) {
        *into = What::Clean {
            class: class::THREADED,
        };
    }
}

/// Writes that the first ordinary DPC begins, or that the processor rests where no thread is ready.
///
/// NothingToDo comes where there is no such DPC and a thread is ready; then nothing was written.
fn idle<S: LaneAnswers>(states: &S, stand: &StandView, into: &mut What) -> Result<(), ActRefusal>
    requires stand { StandFits (S.script_of states.now) stand.now }
    requires queue { S.holds states.now (QueueLane stand.now.cpu) }
    requires threads { S.holds states.now (ThreadsLane stand.now.cpu) }
    ensures event { OnOk result
        (jobs.idle_event (S.script_of states.now) stand.now (S.lanes states.now) ≡ Some into.new) }
    ensures named { OnOk result (IsTrue (what_fits (S.script_of states.now) into.new)) }
    ensures refused { IfErr result (λ r.
        (r ≡ ActRefusal.NothingToDo) ×
        (jobs.idle_event (S.script_of states.now) stand.now (S.lanes states.now) ≡ None)) }
    ensures unwritten { OnErr result (into.new ≡ into.old) }
{
    if begin_first(states, Part::Ordinary, stand.cpu(), into) {
        return Ok(());
    }
    rest(states, stand.cpu(), into)
}

/// Writes that the processor rests, where no thread of it is ready.
///
/// NothingToDo comes where one is; then nothing was written.
fn rest<S: LaneAnswers>(states: &S, p: CpuNo, into: &mut What) -> Result<(), ActRefusal>
    requires { S.holds states.now (ThreadsLane p) }
    ensures event { OnOk result ((into.new ≡ What.Rest) ×
        (is_null (jobs.ready (S.script_of states.now) p (S.lanes states.now)) ≡ true)) }
    ensures refused { IfErr result (λ r.
        (r ≡ ActRefusal.NothingToDo) ×
        (is_null (jobs.ready (S.script_of states.now) p (S.lanes states.now)) ≡ false)) }
    ensures unwritten { OnErr result (into.new ≡ into.old) }
{
    if states.threads().any_ready(p) {
        return Err(ActRefusal::NothingToDo);
    }
    *into = What::Rest;
    Ok(())
}

/// Writes that the next ready thread is taken up; where none is ready, as [`idle`].
fn pick<S: LaneAnswers>(states: &S, stand: &StandView, last: Option<ThreadNo>, into: &mut What)
    requires stand { StandFits (S.script_of states.now) stand.now }
    requires queue { S.holds states.now (QueueLane stand.now.cpu) }
    requires threads { S.holds states.now (ThreadsLane stand.now.cpu) }
    ensures event { jobs.job_event (S.script_of states.now) stand.now (S.lanes states.now)
        (Job.Pick last)
        ≡ Some into.new }
    ensures taken { TakesOwn (S.script_of states.now) stand.now into.new }
    ensures named { IsTrue (what_fits (S.script_of states.now) into.new) }
{
    match states.threads().next_ready(stand.cpu(), last) {
        Some(thread) => switch_to(states, thread, into),
        None => rest_or_begin(states, stand.cpu(), into),
    }
}

/// Writes that the first ordinary DPC begins, or that the processor rests.
fn rest_or_begin<S: LaneAnswers>(states: &S, p: CpuNo, into: &mut What)
    requires cpu { IsTrue (has_cpu (S.script_of states.now) p) }
    requires queue { S.holds states.now (QueueLane p) }
    ensures event { into.new
        ≡ unwrap_or (jobs.begin_first PartOf.Ordinary (queue_at (S.lanes states.now) p)) What.Rest }
    ensures named { IsTrue (what_fits (S.script_of states.now) into.new) }
{
    if !begin_first(states, Part::Ordinary, p, into) {
        *into = What::Rest;
    }
}

/// Writes that the thread is taken up, with the status of its ended wait.
fn switch_to<S: LaneAnswers>(states: &S, thread: ThreadNo, into: &mut What)
    requires thread { IsTrue (has_thread (S.script_of states.now) thread) }
    requires held { S.holds states.now (ThreadsLane (cpu_of (S.script_of states.now) thread)) }
    ensures event { into.new ≡ jobs.switch_event thread (S.lanes states.now) }
    ensures named { IsTrue (what_fits (S.script_of states.now) into.new) }
{
    *into = What::Switch {
        thread,
        status: states.threads().status(thread),
    };
}

/// Writes that the thread is taken up, where it is one of the processor's and ready.
///
/// BadChoice comes where it is not; then nothing was written.
fn switch<S: LaneAnswers>(
    states: &S,
    stand: &StandView,
    thread: ThreadNo,
    into: &mut What,
) -> Result<(), ActRefusal>
    requires { S.holds states.now (ThreadsLane stand.now.cpu) }
    ensures event { OnOk result
        (jobs.job_event (S.script_of states.now) stand.now (S.lanes states.now) (Job.Switch thread)
        ≡ Some into.new) }
    ensures taken { OnOk result (TakesOwn (S.script_of states.now) stand.now into.new) }
    ensures named { OnOk result (IsTrue (what_fits (S.script_of states.now) into.new)) }
    ensures refused { IfErr result (λ r.
        (r ≡ ActRefusal.BadChoice) ×
        (jobs.job_event (S.script_of states.now) stand.now (S.lanes states.now) (Job.Switch thread)
        ≡ None)) }
    ensures unwritten { OnErr result (into.new ≡ into.old) }
{
    if states.threads().may_take(stand.cpu(), thread) {
        switch_to(states, thread, into);
        Ok(())
    } else {
        Err(ActRefusal::BadChoice)
    }
}

/// Writes that the interrupted wait is taken up again.
fn rewait<S: LaneAnswers>(states: &S, stand: &StandView, into: &mut What)
    requires stand { StandFits (S.script_of states.now) stand.now }
    requires own { RunsOwn (S.script_of states.now) stand.now }
    requires runs { IsSome stand.now.thread }
    requires held { AreHeld (S.holds states.now)
        (job_lanes (S.script_of states.now) stand.now Job.Rewait) }
    requires wait { IsSome stand.now.again }
    ensures event { jobs.job_event (S.script_of states.now) stand.now
        (S.lanes states.now) Job.Rewait
        ≡ Some into.new }
    ensures named { IsTrue (what_fits (S.script_of states.now) into.new) }
{
    match stand.again() {
        Some(wait) => {
            *into = What::Rewait {
                frame: stand.frame(),
                reply: wait_reply(
                    states,
                    stand,
                    wait.mode,
                    wait.alertable,
                    is_due(states, wait.due),
                ),
            }
        }
        None => unreachable!(),
    }
}

/// Whether a due time, if there is one, is reached.
fn is_due<S: LaneAnswers>(states: &S, due: Option<u64>) -> Option<bool>
    requires { IsSome due → S.holds states.now TimersLane }
    ensures { result ≡ option_map (is_reached (S.lanes states.now).timers.now) due }
{
    match due {
        Some(due) => Some(due <= states.now()),
        None => None,
    }
}

/// Writes that the first user APC begins, where one is due; else that the thread goes to user mode.
fn to_user<S: LaneAnswers>(states: &S, stand: &StandView, into: &mut What)
    requires stand { StandFits (S.script_of states.now) stand.now }
    requires own { RunsOwn (S.script_of states.now) stand.now }
    requires runs { IsSome stand.now.thread }
    requires held { S.holds states.now (ThreadsLane stand.now.cpu) }
    ensures event { into.new ≡ jobs.touser_event stand.now (S.lanes states.now) }
    ensures named { IsTrue (what_fits (S.script_of states.now) into.new) }
{
    match states.threads().user_due(runner(states, stand)) {
        Some(pick) => begin_apc(&pick, into),
        None => {
            *into = What::Call {
                frame: stand.frame(),
                command: Command::ToUser,
                reply: Reply::Done,
            }
        }
    }
}

/// Writes that the leaving thread's first user APC is flushed; where there is none, that the thread
/// is gone.
fn rundown<S: LaneAnswers>(states: &S, stand: &StandView, into: &mut What)
    requires stand { StandFits (S.script_of states.now) stand.now }
    requires own { RunsOwn (S.script_of states.now) stand.now }
    requires runs { IsSome stand.now.thread }
    requires held { S.holds states.now (ThreadsLane stand.now.cpu) }
    ensures event { jobs.job_event (S.script_of states.now) stand.now
        (S.lanes states.now) Job.Rundown
        ≡ Some into.new }
    ensures named { IsTrue (what_fits (S.script_of states.now) into.new) }
{
    let thread = runner(states, stand);
    match states.threads().user_first(thread) {
        Some(pick) => {
            *into = What::Flush {
                apc: pick.apc,
                from: pick.number,
            }
        }
        None => *into = What::Gone { thread },
    }
}
