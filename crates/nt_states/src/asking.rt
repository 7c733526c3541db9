//! What an event asks for.
ghost use Rattle.std.specs.Prelude.{◌≡◌, ◌≤◌, ◌++◌, ◌&&◌, All, IsTrue, [], false, if◌then◌else◌};
ghost use Rattle.std.specs.Prelude.{length, not};
ghost use Rattle.std.specs.List.{list_any};
ghost use Rattle.nt_event.specs.Apcs.{has_kernel as has_kernel_apc};
ghost use Rattle.nt_event.specs.Lanes.{command_lanes, end_lanes, facts_at, facts_of, insert_lanes};
ghost use Rattle.nt_event.specs.Lanes.{object_at, what_lanes};
ghost use Rattle.nt_event.specs.Replies.{is_refused as refuses};
ghost use Rattle.nt_event.specs.declared.jobs.Lane.TheVariants.{Lock as LockLane};
ghost use Rattle.nt_event.specs.declared.jobs.Lane.TheVariants.{Threads as ThreadsLane};
ghost use Rattle.nt_event.specs.Objects.{is_queued};
ghost use Rattle.nt_event.specs.Requests as requests;
ghost use Rattle.nt_event.specs.Routines as routines;
ghost use Rattle.nt_event.specs.Script.{command_fits, has_apc, has_cpu, has_dpc, has_lock};
ghost use Rattle.nt_event.specs.Script.{has_thread};
ghost use Rattle.nt_event.specs.Threads.{ends_by_alert, ends_by_expiry, is_gone};
ghost use Rattle.nt_dpc.specs.Laws.{asks_on};
ghost use Rattle.nt_event.specs.Acts.{StandFits};
ghost use Rattle.nt_states.specs.Given.{IsGiven, IsTaken, RunsOwn};
ghost use Rattle.nt_states.specs.LaneLists.{AskFits, InsertIsFree, as_asks};
ghost use Rattle.nt_states.specs.Reads.{AreHeld};

use crate::answers::LaneAnswers;
use crate::running::runner;
use crate::thread_answers::ThreadAnswers;
use nt_event::{
    ApcKind, ApcNo, Asked, Body, Command, CpuNo, DpcNo, LockNo, Mode, Regions, Reply, ThreadNo,
    TimerKey, What, class,
};
use nt_frame::StandView;
use std::marker::Model;

/// What an event asks for: a class for each of at most 64 processors. It is filled in place, since
/// most events ask for two classes at most and room for 64 is expensive to move.
#[derive(Drop, Debug)]
pub struct Asks {
    asks: [Asked; 64],
    /// How many there are.
    count: usize,
}

impl Model for Asks {
    ghost use Rattle.std.specs.Prelude.{List, length, take, ◌≡◌, ◌≤◌};
    ghost use Rattle.nt_event.specs.Requests.{Ask};
    ghost use Rattle.nt_states.specs.LaneLists.{as_asks};

    ghost Value = { List Ask };

    ghost view = { λ a. as_asks (take a.count a.asks) };

    ghost invariant = { λ a. (a.count ≤ 64) × (length a.asks ≡ 64) };
}

impl Asks {
    /// No asks.
    pub fn none() -> Asks
        ensures { result ≡ [] }
    {
        let unused = Asked {
            cpu: CpuNo(0),
            class: 0,
        };
        Asks {
            asks: [unused; 64],
            count: 0,
        }
    }

    /// Leaves none.
    fn set_none(&mut self)
        ensures { self.new ≡ [] }
    {
        self.count = 0;
    }

    /// Leaves this class alone.
    fn set_one(&mut self, cpu: CpuNo, class: u8)
        ensures { self.new ≡ requests.ask cpu class }
    {
        self.asks[0] = Asked { cpu, class };
        self.count = 1;
    }

    /// Leaves the class, where the test holds.
    fn set_one_if(&mut self, test: bool, cpu: CpuNo, class: u8)
        ensures { self.new ≡ requests.ask_if test cpu class }
    {
        if test {
            self.set_one(cpu, class);
        } else {
            self.set_none();
        }
    }

    /// Leaves two classes of a processor, each where its test holds.
    fn set_each_if(&mut self, first: bool, second: bool, cpu: CpuNo, a: u8, b: u8)
        ensures { self.new ≡ requests.ask_if first cpu a ++ requests.ask_if second cpu b }
    {
        if first && second {
            self.asks[0] = Asked { cpu, class: a };
            self.asks[1] = Asked { cpu, class: b };
            self.count = 2;
        } else if first {
            self.set_one(cpu, a);
        } else {
            self.set_one_if(second, cpu, b);
        }
    }

    /// Leaves the class that an insert asks for, if any.
    fn set_insert(&mut self, cpu: CpuNo, class: Option<u8>)
        ensures { self.new ≡ asks_on cpu class }
    {
        match class {
            Some(class) => self.set_one(cpu, class),
            None => self.set_none(),
        }
    }

    /// Leaves the class of released locks, for each processor that spins.
    fn set_spinners(&mut self, spinners: &[bool])
        requires { length spinners.now ≤ 64 }
        ensures { self.new ≡ requests.spinner_asks 0 spinners.now }
    {
        if some_spin(spinners) {
            self.add_spinners(spinners);
        } else {
            self.set_none();
        }
    }

    /// Leaves the class of released locks, for each processor that spins.
    fn add_spinners(&mut self, spinners: &[bool])
        requires { length spinners.now ≤ 64 }
        ensures { self.new ≡ requests.spinner_asks 0 spinners.now }
    {
        let unused = Asked {
            cpu: CpuNo(0),
            class: class::LOCK,
        };
        let mut asks = [unused; 64];
        let mut count = 0;
        for cpu in 0..spinners.len() {
            if spinners[cpu] {
                asks[count] = Asked {
                    cpu: CpuNo(cpu as u8),
                    class: class::LOCK,
                };
                count += 1;
            }
        }
        *self = Asks { asks, count };
    }

    /// The classes in order.
    pub fn as_slice(&self) -> &[Asked]
        ensures { as_asks result.now ≡ self.now }
    {
        &self.asks[..self.count]
    }
}

/// Whether a processor spins. It looks at each flag, so that many are tested at once.
fn some_spin(spinners: &[bool]) -> bool
    ensures { result ≡ list_any (λ b. b) spinners.now }
{
    let mut some = false;
    for spins in spinners {
        some |= *spins;
    }
    some
}

/// Fills in what an event asks for, of a processor that stands so.
pub fn event_asks<S: LaneAnswers>(states: &S, stand: &StandView, what: &What, asks: &mut Asks)
    requires given { IsGiven (S.script_of states.now) (S.lanes states.now) stand.now what.now }
    requires held { AreHeld (S.holds states.now)
        (what_lanes (S.script_of states.now) stand.now what.now (S.lanes states.now)) }
    ensures asks { asks.new
        ≡ requests.what_asks (S.script_of states.now) stand.now what.now (S.lanes states.now) }
    ensures named { All (AskFits (S.script_of states.now)) asks.new }
{
    match what {
        What::Call { command, reply, .. } => call_asks(states, stand, command, reply, asks),
        What::Fire {
            dpc,
            reply: Reply::Yes,
        } => insert_asks(states, stand.cpu(), *dpc, asks),
        What::Expire {
            key: TimerKey::Delay(t),
            from,
        } => expiry_asks(states, *t, *from, asks),
        What::Switch { thread, .. } => switch_asks(states, stand.cpu(), *thread, asks),
        What::Normal { .. } => asks.set_one_if(stand.gives_up(), stand.cpu(), class::APC),
        What::End { .. } => end_asks(states, stand, asks),
        What::Free { lock, .. } => spinner_asks(states, *lock, asks),
        What::Fire { .. }
        | What::Expire { .. }
        | What::Look { .. }
        | What::Begin { .. }
        | What::Clean { .. }
        | What::Rewait { .. }
        | What::Flush { .. }
        | What::Gone { .. }
        | What::Rest => asks.set_none(),
    }
}

/// What a call asks for.
fn call_asks<S: LaneAnswers>(
    states: &S,
    stand: &StandView,
    command: &Command,
    reply: &Reply,
    asks: &mut Asks,
)
    requires command { IsTrue (command_fits (S.script_of states.now) command.now) }
    requires stand { StandFits (S.script_of states.now) stand.now }
    requires insert { InsertIsFree (S.lanes states.now) command.now reply.now }
    requires held { AreHeld (S.holds states.now)
        (if refuses reply.now then []
        else command_lanes (S.script_of states.now) stand.now.cpu command.now reply.now
        (S.lanes states.now)) }
    ensures asks { asks.new ≡ requests.command_asks (S.script_of states.now) stand.now command.now
        reply.now (S.lanes states.now) }
    ensures named { All (AskFits (S.script_of states.now)) asks.new }
{
    match (command, reply) {
        (Command::Queue(d), Reply::Yes) => insert_asks(states, stand.cpu(), *d, asks),
        (Command::InsertApc(a), Reply::Yes) => apc_asks(states, *a, asks),
        (Command::LeaveCrit, Reply::Done) => {
            asks.set_one_if(stand.regions().crit == 1, stand.cpu(), class::APC)
        }
        (Command::LeaveGuard, Reply::Done) => {
            asks.set_one_if(stand.regions().guard == 1, stand.cpu(), class::APC)
        }
        (Command::Release(t), Reply::Yes) => release_asks(states, *t, asks),
        (Command::Alert(t, mode), Reply::No) => alert_asks(states, *t, *mode, asks),
        (Command::Interrupt(cpu, level), Reply::Done) => asks.set_one(*cpu, level.number()),
        (Command::Clock(_), Reply::Done) => asks.set_one(stand.cpu(), class::CLOCK),
        (Command::Unlock(k), Reply::Done) => spinner_asks(states, *k, asks),
        (Command::Raise(_), _)
        | (Command::Lower(_), _)
        | (Command::Queue(_), _)
        | (Command::Unqueue(_), _)
        | (Command::SetImportance(_, _), _)
        | (Command::SetTarget(_, _), _)
        | (Command::SetTimer(_, _, _), _)
        | (Command::CancelTimer(_), _)
        | (Command::InsertApc(_), _)
        | (Command::RemoveApc(_), _)
        | (Command::EnterCrit, _)
        | (Command::LeaveCrit, _)
        | (Command::EnterGuard, _)
        | (Command::LeaveGuard, _)
        | (Command::StartWait(_, _), _)
        | (Command::Delay(_, _, _), _)
        | (Command::Release(_), _)
        | (Command::Alert(_, _), _)
        | (Command::TestAlert(_), _)
        | (Command::Interrupt(_, _), _)
        | (Command::Clock(_), _)
        | (Command::ToUser, _)
        | (Command::Yield, _)
        | (Command::Acquire(_), _)
        | (Command::Unlock(_), _)
        | (Command::Note(_), _) => asks.set_none(),
    }
}

/// What an insert of an object that is not queued asks for.
fn insert_asks<S: LaneAnswers>(states: &S, p: CpuNo, d: DpcNo, asks: &mut Asks)
    requires object { IsTrue (has_dpc (S.script_of states.now) d) }
    requires cpu { IsTrue (has_cpu (S.script_of states.now) p) }
    requires free { is_queued (object_at (S.lanes states.now) d) ≡ false }
    requires held { AreHeld (S.holds states.now) (insert_lanes p d Reply.Yes (S.lanes states.now)) }
    ensures asks { asks.new
        ≡ requests.queue_asks (S.script_of states.now) d p (S.lanes states.now) }
    ensures named { All (AskFits (S.script_of states.now)) asks.new }
{
    let class = states.ask(d, p);
    asks.set_insert(states.queue_for(d, p), class)
}

/// What an insert of an APC asks for.
fn apc_asks<S: LaneAnswers>(states: &S, a: ApcNo, asks: &mut Asks)
    requires object { IsTrue (has_apc (S.script_of states.now) a) }
    requires held { S.holds states.now (ThreadsLane
        (routines.cpu_of (S.script_of states.now) (routines.owner_of (S.script_of states.now) a))) }
    ensures asks { asks.new ≡ requests.apc_asks (S.script_of states.now) a (S.lanes states.now) }
    ensures named { All (AskFits (S.script_of states.now)) asks.new }
{
    let kernel = states.script().kind_of(a).is_kernel();
    let cpu = states.script().cpu_of(states.script().owner_of(a));
    asks.set_each_if(
        kernel,
        states.threads().ends_by_apc(a),
        cpu,
        class::APC,
        class::DISPATCH,
    )
}

/// What a release that ends a wait asks for.
fn release_asks<S: LaneAnswers>(states: &S, t: ThreadNo, asks: &mut Asks)
    ensures asks { asks.new ≡ requests.ask (routines.cpu_of (S.script_of states.now) t) 2 }
    ensures named { All (AskFits (S.script_of states.now)) asks.new }
{
    asks.set_one(states.script().cpu_of(t), class::DISPATCH)
}

/// What the release of a lock asks for: each processor that spins on it is to try again.
fn spinner_asks<S: LaneAnswers>(states: &S, k: LockNo, asks: &mut Asks)
    requires lock { IsTrue (has_lock (S.script_of states.now) k) }
    requires held { S.holds states.now (LockLane k) }
    ensures asks { asks.new ≡ requests.release_asks k (S.lanes states.now) }
    ensures named { All (AskFits (S.script_of states.now)) asks.new }
{
    let _script = states.script();
    asks.set_spinners(states.spinners(k))
}

/// What an alert whose flag was clear asks for.
fn alert_asks<S: LaneAnswers>(states: &S, t: ThreadNo, mode: Mode, asks: &mut Asks)
    requires thread { IsTrue (has_thread (S.script_of states.now) t) }
    requires held { S.holds states.now (ThreadsLane (routines.cpu_of (S.script_of states.now) t)) }
    ensures asks { asks.new ≡ requests.ask_if
        (not (is_gone (facts_at (S.lanes states.now) t))
        && ends_by_alert mode (facts_at (S.lanes states.now) t))
        (routines.cpu_of (S.script_of states.now) t) 2 }
    ensures named { All (AskFits (S.script_of states.now)) asks.new }
{
    let ends = !states.threads().is_gone(t) && states.threads().ends_by_alert(t, mode);
    asks.set_one_if(ends, states.script().cpu_of(t), class::DISPATCH)
}

/// What the expiry of a delay asks for.
fn expiry_asks<S: LaneAnswers>(states: &S, t: ThreadNo, from: u64, asks: &mut Asks)
    requires thread { IsTrue (has_thread (S.script_of states.now) t) }
    requires held { S.holds states.now (ThreadsLane (routines.cpu_of (S.script_of states.now) t)) }
    ensures asks { asks.new ≡ requests.ask_if
        (ends_by_expiry from (facts_at (S.lanes states.now) t))
        (routines.cpu_of (S.script_of states.now) t) 2 }
    ensures named { All (AskFits (S.script_of states.now)) asks.new }
{
    let ends = states.threads().ends_by_expiry(t, from);
    asks.set_one_if(ends, states.script().cpu_of(t), class::DISPATCH)
}

/// What the taking up of a thread asks for.
fn switch_asks<S: LaneAnswers>(states: &S, p: CpuNo, t: ThreadNo, asks: &mut Asks)
    requires cpu { IsTrue (has_cpu (S.script_of states.now) p) }
    requires taken { IsTaken (S.script_of states.now) p t }
    requires held { S.holds states.now (ThreadsLane p) }
    ensures asks { asks.new
        ≡ requests.ask_if (has_kernel_apc (facts_at (S.lanes states.now) t).apcs) p 1 }
    ensures named { All (AskFits (S.script_of states.now)) asks.new }
{
    asks.set_one_if(states.threads().has_kernel(t), p, class::APC)
}

/// What the end of a frame asks for.
fn end_asks<S: LaneAnswers>(states: &S, stand: &StandView, asks: &mut Asks)
    requires stand { StandFits (S.script_of states.now) stand.now }
    requires own { RunsOwn (S.script_of states.now) stand.now }
    requires held { AreHeld (S.holds states.now) (end_lanes stand.now.cpu stand.now.body) }
    ensures asks { asks.new ≡ requests.end_asks stand.now stand.now.body (S.lanes states.now) }
    ensures named { All (AskFits (S.script_of states.now)) asks.new }
{
    let given_up = stand.gives_up();
    match stand.body() {
        Some(Body::Apc(_, ApcKind::Normal)) => asks.set_one(stand.cpu(), class::APC),
        Some(Body::Base(_)) => {
            let test = given_up || has_kernel(states, stand);
            asks.set_one_if(test, stand.cpu(), class::APC)
        }
        Some(Body::Int(_))
        | Some(Body::Dpc(_))
        | Some(Body::Threaded(_))
        | Some(Body::Apc(_, ApcKind::Special | ApcKind::User))
        | Some(Body::Rundown(_))
        | None => asks.set_one_if(given_up, stand.cpu(), class::APC),
    }
}

/// Whether the running thread, if there is one, has a kernel APC pending.
fn has_kernel<S: LaneAnswers>(states: &S, stand: &StandView) -> bool
    requires stand { StandFits (S.script_of states.now) stand.now }
    requires own { RunsOwn (S.script_of states.now) stand.now }
    requires held { S.holds states.now (ThreadsLane stand.now.cpu) }
    ensures { result ≡ has_kernel_apc (facts_of (S.lanes states.now) stand.now.thread).apcs }
{
    match stand.thread() {
        Some(_) => states.threads().has_kernel(runner(states, stand)),
        None => false,
    }
}
