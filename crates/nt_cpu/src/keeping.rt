//! What a processor keeps of its events beside its frames and what it has seen.
ghost use Rattle.std.specs.Prelude.{◌≡◌, ◌==◌, ℕ, Option, None, false, if◌then◌else◌, length};
ghost use Rattle.nt_event.specs.declared.events.What.{What};
ghost use Rattle.nt_event.specs.declared.numbers.DpcNo.{DpcNo};
ghost use Rattle.nt_event.specs.Own.{fire_after, is_rest, took_after};
ghost use Rattle.nt_event.specs.Regions.{sweep_after as sweep_left};
ghost use Rattle.nt_event.specs.Requests.{served_after};
ghost use Rattle.nt_event.specs.Lists.{table, value_at};
ghost use Rattle.nt_floor.specs.Seen.{SameInterrupts};

use crate::values::Values;
use nt_event::{Begun, Command, DpcNo, Reply, Script, ThreadNo, TimerKey, What};
use nt_floor::Seen;

/// The class of dispatch, whose service ends a sweep of the timers.
const DISPATCH: u8 = 2;

/// The class of released locks, which a try that spins serves.
const LOCK: u8 = 12;

/// The class of the clock, whose interrupt owes a sweep of the timers.
const CLOCK: u8 = 13;

/// What a processor keeps of its events beside its frames and what it has seen.
#[derive(Drop, Debug)]
pub struct Kept {
    /// What was seen of each class when it was last served.
    pub served: Values,
    /// Whether the last event is Rest.
    pub rested: bool,
    /// The thread that was taken last.
    pub took: Option<ThreadNo>,
    /// The DPC object that is to be fired: that of the timer that expired, until it is fired.
    pub fire: Option<DpcNo>,
    /// Whether a sweep of the timers is owed: from the beginning of a clock interrupt, and from the
    /// set of a timer that is due already, until class 2 is served.
    pub sweep: bool,
}

/// What was seen of the class is served.
fn serve(served: &mut Values, seen: &Seen, class: u8)
    requires { length served.old ≡ 16 }
    ensures { served.new
        ≡ table 16 (λ c. if class == c then value_at seen.now c else value_at served.old c) }
{
    if class < 16 {
        served.serve(class, seen);
    }
}

/// Whether a sweep is owed after this call: it was, or the call sets a timer that is due already.
fn sweep_after(command: &Command, reply: &Reply, old: bool) -> bool
    ensures { (frame : ℕ) → result ≡ sweep_left (What.Call frame command.now reply.now) old }
{
    if let Command::SetTimer(_, due, _) = command {
        return reply.is_answer() && *due == 0 || old;
    }
    old
}

/// The DPC object of the timer that expired; a delay has none.
fn expired(script: &Script, key: &TimerKey) -> Option<DpcNo>
    ensures { (from : ℕ) (old : Option DpcNo) →
        result ≡ fire_after script.now (What.Expire key.now from) old }
{
    match key {
        TimerKey::Timer(timer) => script.dpc_of(*timer),
        TimerKey::Delay(_) => None,
    }
}

impl Kept {
    /// Of a processor that has made no event.
    pub fn new() -> Kept
        ensures { result ≡ record {
          served = table 16 (λ c. 0);
          rested = false;
          took = None;
          fire = None;
          sweep = false;
        } }
    {
        Kept {
            served: Values::new(),
            rested: false,
            took: None,
            fire: None,
            sweep: false,
        }
    }

    /// A copy of it.
    pub(crate) fn copy(&self) -> Kept
        ensures { result ≡ self.now }
    {
        Kept {
            served: self.served.copy(),
            rested: self.rested,
            took: self.took,
            fire: self.fire,
            sweep: self.sweep,
        }
    }

    /// An interrupt that begins serves its class, and that of the clock owes a sweep; another
    /// beginning leaves all. False only where what was served of interrupts is as before.
    fn begin(&mut self, begun: &Begun, seen: &Seen) -> bool
        requires { length self.old.served ≡ 16 }
        ensures served { (from : ℕ) →
            self.new.served ≡ table 16 (λ c.
            served_after (What.Begin begun.now from) c (value_at seen.now c)
            (value_at self.old.served c)) }
        ensures interrupts { result ≡ false → SameInterrupts self.old.served self.new.served }
        ensures sweep { (from : ℕ) →
            self.new.sweep ≡ sweep_left (What.Begin begun.now from) self.old.sweep }
        ensures others { self.new
            ≡ record self.old { served = self.new.served; sweep = self.new.sweep } }
    {
        match begun {
            Begun::Int(level) => {
                self.sweep = level.number() == CLOCK || self.sweep;
                serve(&mut self.served, seen, level.number());
                true
            }
            Begun::Dpc(_) => false,
            Begun::Threaded(_) => false,
            Begun::Apc(_) => false,
        }
    }

    /// Takes up this event, where these values are seen after it. False only where what was served
    /// of interrupts is as before.
    pub fn take_up(&mut self, script: &Script, what: &What, seen: &Seen) -> bool
        requires { length self.old.served ≡ 16 }
        ensures served { self.new.served ≡ table 16
            (λ c. served_after what.now c (value_at seen.now c) (value_at self.old.served c)) }
        ensures interrupts { result ≡ false → SameInterrupts self.old.served self.new.served }
        ensures rested { self.new.rested ≡ is_rest what.now }
        ensures took { self.new.took ≡ took_after what.now self.old.took }
        ensures fire { self.new.fire ≡ fire_after script.now what.now self.old.fire }
        ensures sweep { self.new.sweep ≡ sweep_left what.now self.old.sweep }
    {
        self.rested = false;
        match what {
            What::Begin { begun, .. } => self.begin(begun, seen),
            What::Clean { class } => {
                self.sweep = *class != DISPATCH && self.sweep;
                serve(&mut self.served, seen, *class);
                DISPATCH < *class
            }
            What::Switch { thread, .. } => {
                self.took = Some(*thread);
                false
            }
            What::Expire { key, .. } => {
                self.fire = expired(script, key);
                false
            }
            What::Fire { .. } => {
                self.fire = None;
                false
            }
            What::Call { command, reply, .. } => {
                self.sweep = sweep_after(command, reply, self.sweep);
                if reply.is_spin() {
                    self.served.serve(LOCK, seen);
                }
                false
            }
            What::Rest => {
                self.rested = true;
                false
            }
            What::Look { .. } => false,
            What::Normal { .. } => false,
            What::End { .. } => false,
            What::Rewait { .. } => false,
            What::Flush { .. } => false,
            What::Gone { .. } => false,
            What::Free { .. } => false,
        }
    }
}
