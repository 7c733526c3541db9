//! The state of one thread.
ghost use Rattle.std.specs.Bool.{OnFalse, OnTrue};
ghost use Rattle.std.specs.Prelude.{◌≡◌, ◌<◌, ◌&&◌, ◌||◌, ◌↔◌, IfOk, IfNone, IfSome, IsTrue, None};
ghost use Rattle.std.specs.Prelude.{false, if◌then◌else◌, is_some, length, not, option_map, true};
ghost use Rattle.std.specs.Prelude.{ℕ};
ghost use Rattle.nt_event.specs.Apcs as queues;
ghost use Rattle.nt_event.specs.Jobs.{user_due as due_of};
ghost use Rattle.nt_event.specs.Threads as spec;
ghost use Rattle.nt_event.specs.Waits as waits;
ghost use Rattle.nt_event.specs.Replies.{alerted, is_user, kernel_apc, satisfied, user_apc};
ghost use Rattle.nt_event.specs.declared.numbers.ApcNo.{ApcNo as Apc};
ghost use Rattle.nt_event.specs.declared.threads.Doing.{Doing};
ghost use Rattle.nt_thread.specs.Endings.{ended_by};
ghost use Rattle.nt_event.specs.Quiet.{NothingBehind};
ghost use Rattle.nt_thread.specs.Replies.{reply_of};

use crate::answers::{AlertAnswer, ApcAnswer, WaitAnswer, WaitSpec};
use nt_apc::ApcQueues;
use nt_event::{ApcKind, ApcNo, Doing, Level, Mode, Pick, Regions, Waiting, status};
use std::alloc::{AllocError, Global};
use std::marker::Model;

/// The state of one thread.
///
/// Contracts see what it is doing, its alerted flags, the user-pending mark, the released mark,
/// whether its base routine has ended, and its APCs.
#[derive(Drop)]
pub struct ThreadState {
    doing: Doing,
    alerted_kernel: bool,
    alerted_user: bool,
    user_pending: bool,
    released: bool,
    leaving: bool,
    apcs: ApcQueues,
}

impl Model for ThreadState {
    ghost use Rattle.nt_event.specs.Threads.{ThreadFacts};
    ghost use Rattle.nt_event.specs.Quiet.{QuietDoing};

    ghost Value = { ThreadFacts };

    ghost view = { λ a. record {
      doing = a.doing;
      alerted_kernel = a.alerted_kernel;
      alerted_user = a.alerted_user;
      user_pending = a.user_pending;
      released = a.released;
      leaving = a.leaving;
      apcs = a.apcs;
    } };

    ghost invariant = { λ a. QuietDoing a.doing a.apcs };
}

impl ThreadState {
    /// A thread that has not run: ready, with no flags, no APCs and open doors. Room is taken for
    /// its `apcs` APC objects, and no later call but [`ThreadState::copy`] takes memory.
    pub fn new(alloc: Global, apcs: u32) -> Result<ThreadState, AllocError>
        ensures { IfOk result (λ x. x ≡ spec.start_facts) }
    {
        Ok(ThreadState {
            doing: Doing::Ready {
                level: Level::PASSIVE,
                status: None,
            },
            alerted_kernel: false,
            alerted_user: false,
            user_pending: false,
            released: false,
            leaving: false,
            apcs: ApcQueues::new(alloc, apcs)?,
        })
    }

    /// A copy of it, with room for all APC objects.
    pub fn copy(&self, alloc: Global) -> Result<ThreadState, AllocError>
        ensures { IfOk result (λ x. x ≡ self.now) }
    {
        Ok(ThreadState {
            doing: self.doing,
            alerted_kernel: self.alerted_kernel,
            alerted_user: self.alerted_user,
            user_pending: self.user_pending,
            released: self.released,
            leaving: self.leaving,
            apcs: self.apcs.copy(alloc)?,
        })
    }

    // ---- what it is doing

    /// Whether it may be taken up.
    pub fn is_ready(&self) -> bool
        ensures answer { result ≡ spec.is_ready self.now }
        ensures quiet { NothingBehind self.now }
    {
        matches!(&self.doing, Doing::Ready { .. })
    }

    /// Whether it runs.
    pub fn is_running(&self) -> bool
        ensures answer { IsTrue result ↔ (self.now.doing ≡ Doing.Running) }
        ensures quiet { NothingBehind self.now }
    {
        matches!(&self.doing, Doing::Running)
    }

    /// Whether its base routine has ended and it is not gone.
    pub fn is_leaving(&self) -> bool
        ensures answer { result ≡ self.now.leaving }
        ensures quiet { NothingBehind self.now }
    {
        self.leaving
    }

    /// Whether it is gone.
    pub fn is_gone(&self) -> bool
        ensures answer { result ≡ spec.is_gone self.now }
        ensures quiet { NothingBehind self.now }
    {
        matches!(&self.doing, Doing::Gone)
    }

    /// The level of a thread that doesn't run: the one at which it last blocked or gave way,
    /// PASSIVE before its first run.
    pub fn level(&self) -> Level
        ensures { result ≡ spec.doing_level self.now.doing }
    {
        match &self.doing {
            Doing::Ready { level, .. } => *level,
            Doing::Blocked(waiting) => waiting.level,
            Doing::Running | Doing::Gone => Level::PASSIVE,
        }
    }

    /// The thread is taken up. Answers the status of the wait that ended, None at the first run and
    /// after a yield.
    pub fn resume(&mut self) -> Option<u32>
        requires { IsTrue (spec.is_ready self.old) }
        ensures status { result ≡ spec.ended_status self.old }
        ensures after { self.new ≡ record self.old { doing = Doing.Running } }
    {
        let status = match &self.doing {
            Doing::Ready { status, .. } => *status,
            _ => None,
        };
        self.doing = Doing::Running;
        status
    }

    /// The running thread gives way at this level: it is ready, and its next
    /// [`ThreadState::resume`] has no status.
    pub fn give_way(&mut self, level: Level)
        ensures { self.new ≡ record self.old { doing = Doing.Ready level None } }
    {
        self.doing = Doing::Ready {
            level,
            status: None,
        };
    }

    // ---- waits

    /// The running thread waits, at this level and in these regions. The tests at a wait are made
    /// in their order, and what the one that holds sets or clears is done; where none holds, the
    /// thread is blocked from here on. A wait that is taken up again is the same call.
    pub fn wait(&mut self, w: WaitSpec, regions: Regions, level: Level) -> WaitAnswer
        ensures answer { reply_of result
            ≡ waits.wait_reply self.old regions level w.mode w.alertable w.reached }
        ensures after { self.new ≡ waits.waited w.set regions level w.mode w.alertable
            (is_some w.reached) (reply_of result) self.old }
        ensures quiet { NothingBehind self.new }
    {
        let answer = self.wait_answer(w, regions, level);
        match answer {
            WaitAnswer::Now(status) => self.leave_wait(status, w),
            WaitAnswer::Blocked => {
                self.doing = Doing::Blocked(Waiting {
                    event: w.set,
                    mode: w.mode,
                    alertable: w.alertable,
                    delay: w.reached.is_some(),
                    level,
                    regions,
                });
            }
        }
        answer
    }

    /// What [`ThreadState::wait`] would answer now, whatever `w.set` is.
    pub fn wait_answer(&self, w: WaitSpec, regions: Regions, level: Level) -> WaitAnswer
        ensures { reply_of result
            ≡ waits.wait_reply self.now regions level w.mode w.alertable w.reached }
    {
        if self.apcs.deliverable(regions, level).is_some() {
            return WaitAnswer::Now(status::KERNEL_APC);
        }
        if self.is_satisfied(w.reached) {
            return WaitAnswer::Now(status::SUCCESS);
        }
        if self.takes_alert(w) {
            return WaitAnswer::Now(status::ALERTED);
        }
        if self.takes_user_apc(w) {
            return WaitAnswer::Now(status::USER_APC);
        }
        if self.takes_kernel_alert(w) {
            return WaitAnswer::Now(status::ALERTED);
        }
        if self.takes_mark(w) {
            return WaitAnswer::Now(status::USER_APC);
        }
        WaitAnswer::Blocked
    }

    fn is_satisfied(&self, reached: Option<bool>) -> bool
        ensures { result ≡ waits.is_satisfied self.now reached }
    {
        reached.unwrap_or(self.released)
    }

    /// Alertable, and the alerted flag of its mode is set.
    fn takes_alert(&self, w: WaitSpec) -> bool
        ensures { result ≡ (w.alertable && spec.is_alerted w.mode self.now) }
    {
        w.alertable && self.is_alerted(w.mode)
    }

    /// Alertable, of user mode, and a user APC is queued.
    fn takes_user_apc(&self, w: WaitSpec) -> bool
        ensures { result ≡ (w.alertable && (is_user w.mode && queues.has_user self.now.apcs)) }
    {
        w.alertable && w.mode == Mode::User && self.apcs.user_first().is_some()
    }

    /// Alertable, and the kernel alerted flag is set.
    fn takes_kernel_alert(&self, w: WaitSpec) -> bool
        ensures { result ≡ (w.alertable && self.now.alerted_kernel) }
    {
        w.alertable && self.alerted_kernel
    }

    /// Plain, of user mode, and the user-pending mark is set.
    fn takes_mark(&self, w: WaitSpec) -> bool
        ensures { result ≡ (not w.alertable && (is_user w.mode && self.now.user_pending)) }
    {
        !w.alertable && w.mode == Mode::User && self.user_pending
    }

    fn is_alerted(&self, m: Mode) -> bool
        ensures { result ≡ spec.is_alerted m self.now }
    {
        match m {
            Mode::Kernel => self.alerted_kernel,
            Mode::User => self.alerted_user,
        }
    }

    fn set_alerted(&mut self, m: Mode, flag: bool)
        ensures { self.new ≡ spec.set_alerted m flag self.old }
    {
        match m {
            Mode::Kernel => self.alerted_kernel = flag,
            Mode::User => self.alerted_user = flag,
        }
    }

    /// What a wait that has this status and didn't block sets or clears.
    fn leave_wait(&mut self, status: u32, w: WaitSpec)
        ensures { self.new ≡ waits.answered status w.mode w.alertable (is_some w.reached) self.old }
    {
        if status == status::SUCCESS {
            if w.reached.is_none() {
                self.released = false;
            }
        } else if status == status::ALERTED {
            self.take_alert(w.mode);
        } else if status == status::USER_APC && w.alertable {
            self.user_pending = true;
        }
    }

    /// Clears the alerted flag that ends a wait of this mode.
    fn take_alert(&mut self, m: Mode)
        ensures { self.new ≡ waits.alert_taken m self.old }
    {
        if self.is_alerted(m) {
            self.set_alerted(m, false);
        } else {
            self.alerted_kernel = false;
        }
    }

    // ---- what ends a wait

    /// The wait ends with this status: the thread is ready, and [`ThreadState::resume`] gives the
    /// status.
    fn end_wait(&mut self, status: u32)
        ensures { self.new ≡ spec.ended status self.old }
    {
        let level = self.level();
        self.doing = Doing::Ready {
            level,
            status: Some(status),
        };
    }

    /// The wait in which it is blocked.
    fn waiting(&self) -> Option<Waiting>
        ensures { result ≡ spec.waiting self.now }
    {
        match &self.doing {
            Doing::Blocked(waiting) => Some(*waiting),
            _ => None,
        }
    }

    /// Ends a wait that isn't a delay; else sets the released mark, unless the thread is gone. True
    /// exactly where it ended a wait.
    pub fn release(&mut self) -> bool
        ensures answer { result ≡ spec.ends_by_release self.old }
        ensures after { self.new ≡ waits.release_facts self.old }
    {
        let ended = self.waits_for_release();
        if ended {
            self.end_wait(status::SUCCESS);
        } else if !self.is_gone() {
            self.released = true;
        }
        ended
    }

    fn waits_for_release(&self) -> bool
        ensures { result ≡ spec.ends_by_release self.now }
    {
        match &self.doing {
            Doing::Blocked(waiting) => !waiting.delay,
            _ => false,
        }
    }

    /// The delay that was set under this number is over. True exactly where the thread was blocked
    /// in it.
    pub fn end_delay(&mut self, set: u64) -> bool
        ensures answer { result ≡ spec.ends_by_expiry set self.old }
        ensures after { self.new ≡ waits.expiry_facts set self.old }
    {
        let ended = self.waits_for_expiry(set);
        if ended {
            self.end_wait(status::SUCCESS);
        }
        ended
    }

    fn waits_for_expiry(&self, set: u64) -> bool
        ensures { result ≡ spec.ends_by_expiry set self.now }
    {
        match &self.doing {
            Doing::Blocked(waiting) => waiting.delay && waiting.event == set,
            _ => false,
        }
    }

    /// Alerts the thread for this mode: where the flag was clear, an alertable wait whose mode
    /// isn't below ends, else the flag is set. For a gone thread both answers are false and nothing
    /// changes.
    pub fn alert(&mut self, m: Mode) -> AlertAnswer
        ensures was { result.was ≡ (not (spec.is_gone self.old) && spec.is_alerted m self.old) }
        ensures ended { result.ended
            ≡ (not (spec.is_gone self.old) && spec.ends_by_alert m self.old) }
        ensures after { self.new ≡ waits.alert_facts m self.old }
    {
        if self.is_gone() {
            return AlertAnswer {
                was: false,
                ended: false,
            };
        }
        let was = self.is_alerted(m);
        let ended = self.waits_for_alert(m);
        if ended {
            self.end_wait(status::ALERTED);
        } else {
            self.set_alerted(m, true);
        }
        AlertAnswer { was, ended }
    }

    fn waits_for_alert(&self, m: Mode) -> bool
        ensures { result ≡ spec.ends_by_alert m self.now }
    {
        match &self.doing {
            Doing::Blocked(waiting) => {
                !self.is_alerted(m) && waiting.alertable && is_not_below(waiting.mode, m)
            }
            _ => false,
        }
    }

    /// Tests the alerted flag of this mode, and clears it. Where it was clear, for user mode with a
    /// user APC queued, the user-pending mark is set. True exactly where the flag was set.
    pub fn test_alert(&mut self, m: Mode) -> bool
        ensures answer { result ≡ spec.is_alerted m self.old }
        ensures after { self.new ≡ waits.alert_tested m self.old }
    {
        let was = self.is_alerted(m);
        if was {
            self.set_alerted(m, false);
        } else if m == Mode::User && self.apcs.user_first().is_some() {
            self.user_pending = true;
        }
        was
    }

    // ---- APCs

    /// Inserts the APC object, under the number `n` of the inserting event. Not `yes` exactly where
    /// the object is inserted already or the thread no longer takes APCs, and then nothing changes.
    /// A kernel APC that is deliverable then ends a wait inwardly with STATUS_KERNEL_APC; a user
    /// APC ends an alertable user wait, or a plain one where the user-pending mark is set, with
    /// STATUS_USER_APC, and sets the mark.
    ///
    /// The numbers of a thread's inserts rise: `n` is meant to be above each number that was
    /// inserted here before.
    pub fn apc(&mut self, a: ApcNo, k: ApcKind, n: u64) -> ApcAnswer
        requires { a.0 < 256 }
        ensures yes { result.yes ≡ queues.takes a self.old.apcs }
        ensures ended { result.ended ≡ (queues.takes a self.old.apcs
            && spec.ends_by_apc (record { apc = a; kind = k; number = n }) self.old) }
        ensures after { OnTrue result.yes
            (self.new ≡ waits.insert_facts (record { apc = a; kind = k; number = n }) self.old) }
        ensures same { OnFalse result.yes (self.new ≡ self.old) }
        ensures quiet { NothingBehind self.new }
    {
        let answer = self.apc_answer(a, k);
        if answer.yes {
            let pick = Pick {
                apc: a,
                kind: k,
                number: n,
            };
            self.accept(pick, answer.ended);
        }
        answer
    }

    /// The insert is accepted, and ends the wait or doesn't.
    fn accept(&mut self, pick: Pick, ended: bool)
        requires open_for { queues.takes pick.apc self.old.apcs ≡ true }
        requires below { pick.apc.0 < 256 }
        requires ends { ended ≡ spec.ends_by_apc pick self.old }
        requires quiet { NothingBehind self.old }
        ensures after { self.new ≡ waits.insert_facts pick self.old }
        ensures quiet { NothingBehind self.new }
    {
        self.end_where(ended, pick.kind);
        let _ = self.apcs.insert(pick.apc, pick.kind, pick.number);
    }

    fn end_where(&mut self, ended: bool, k: ApcKind)
        ensures { self.new ≡ (if ended then ended_by k self.old else self.old) }
    {
        if ended {
            self.end_by_apc(k);
        }
    }

    /// What [`ThreadState::apc`] would answer now.
    pub fn apc_answer(&self, a: ApcNo, k: ApcKind) -> ApcAnswer
        ensures yes { result.yes ≡ queues.takes a self.now.apcs }
        ensures ended { (n : ℕ) →
            result.ended ≡ (queues.takes a self.now.apcs
            && spec.ends_by_apc (record { apc = a; kind = k; number = n }) self.now) }
        ensures quiet { NothingBehind self.now }
    {
        let yes = self.apcs.open_for(a);
        ApcAnswer {
            yes,
            ended: yes && self.waits_for_apc(k),
        }
    }

    /// Whether an APC of this kind ends the wait once it is inserted.
    fn waits_for_apc(&self, k: ApcKind) -> bool
        ensures { (a : Apc) (n : ℕ) →
            result ≡ spec.ends_by_apc (record { apc = a; kind = k; number = n }) self.now }
    {
        match k {
            ApcKind::User => self.waits_for_user(),
            _ => self.waits_for_kernel(k),
        }
    }

    fn waits_for_user(&self) -> bool
        ensures { result ≡ spec.ends_by_user self.now }
    {
        match &self.doing {
            Doing::Blocked(waiting) => {
                waiting.mode == Mode::User && (waiting.alertable || self.user_pending)
            }
            _ => false,
        }
    }

    fn waits_for_kernel(&self, k: ApcKind) -> bool
        ensures { (a : Apc) (n : ℕ) →
            result ≡ spec.ends_by_kernel
            (queues.with_apc (record { apc = a; kind = k; number = n }) self.now.apcs) self.now }
    {
        match &self.doing {
            Doing::Blocked(waiting) => {
                self.apcs
                    .deliverable_with(k, waiting.regions, waiting.level)
            }
            _ => false,
        }
    }

    /// The wait ends by an APC of this kind, which is not inserted yet.
    fn end_by_apc(&mut self, k: ApcKind)
        ensures { self.new ≡ ended_by k self.old }
    {
        match k {
            ApcKind::User => {
                self.end_wait(status::USER_APC);
                self.user_pending = true;
            }
            _ => self.end_wait(status::KERNEL_APC),
        }
    }

    /// Takes the APC object out. True exactly where it was inserted.
    pub fn unapc(&mut self, a: ApcNo) -> bool
        ensures answer { result ≡ queues.is_inserted a self.old.apcs }
        ensures after { self.new ≡ record self.old { apcs = queues.without_apc a self.old.apcs } }
        ensures same { OnFalse result (self.new ≡ self.old) }
    {
        self.apcs.remove(a)
    }

    /// The first kernel APC, where a thread at this level and in these regions lets it through.
    pub fn deliverable(&self, regions: Regions, level: Level) -> Option<Pick>
        ensures { result ≡ queues.deliverable self.now.apcs regions level }
    {
        self.apcs.deliverable(regions, level)
    }

    /// The user APC that is due on the way to user mode: the first one, where the user-pending mark
    /// is set.
    pub fn user_due(&self) -> Option<Pick>
        ensures { result ≡ due_of self.now }
    {
        if self.user_pending {
            self.apcs.user_first()
        } else {
            None
        }
    }

    /// Whether a kernel APC is queued.
    pub fn has_kernel(&self) -> bool
        ensures { result ≡ queues.has_kernel self.now.apcs }
    {
        self.apcs.has_kernel()
    }

    /// The running thread begins the APC: it is no longer queued, and a user one clears the
    /// user-pending mark. The pick is meant to be one that [`ThreadState::deliverable`] or
    /// [`ThreadState::user_due`] answered on this state.
    pub fn take(&mut self, p: Pick)
        ensures { self.new ≡ waits.apc_taken p.kind p.apc self.old }
    {
        self.apcs.take(p);
        if p.kind == ApcKind::User {
            self.user_pending = false;
        }
    }

    // ---- rundown

    /// The base routine of the running thread has ended: it is leaving, and takes no more APCs.
    pub fn leave(&mut self)
        ensures { self.new ≡ waits.leaving_facts self.old }
    {
        self.leaving = true;
        self.apcs.close_doors();
    }

    /// Takes out the first user APC of a leaving thread, and answers it with the number of its
    /// insert. None exactly where there is none.
    pub fn flush(&mut self) -> Option<(ApcNo, u64)>
        ensures answer { result
            ≡ option_map (λ x. (x.apc, x.number)) (queues.first_user self.old.apcs) }
        ensures after { IfSome result
            (λ y. self.new ≡ record self.old { apcs = queues.without_apc y.0 self.old.apcs }) }
        ensures none { IfNone result (self.new ≡ self.old) }
        ensures fewer { IfSome result (λ y.
            length self.new.apcs.pending < length self.old.apcs.pending) }
    {
        self.apcs.flush_next()
    }

    /// The leaving thread is gone. Its user APCs have been flushed.
    pub fn gone(&mut self)
        requires { queues.first_user self.old.apcs ≡ None }
        ensures { self.new ≡ record self.old { doing = Doing.Gone; leaving = false } }
    {
        self.doing = Doing::Gone;
        self.leaving = false;
    }

    // ---- questions, for a caller that asks and leaves the state as it is

    /// What it is doing.
    pub fn doing(&self) -> &Doing
        ensures { result.now ≡ self.now.doing }
    {
        &self.doing
    }

    /// Its APCs.
    pub fn apcs(&self) -> &ApcQueues
        ensures { result.now ≡ self.now.apcs }
    {
        &self.apcs
    }

    /// Whether its user-pending mark is set.
    pub fn user_pending(&self) -> bool
        ensures { result ≡ self.now.user_pending }
    {
        self.user_pending
    }

    /// Whether its released mark is set.
    pub fn was_released(&self) -> bool
        ensures { result ≡ self.now.released }
    {
        self.released
    }

    /// The status of the wait that ended, which the next [`ThreadState::resume`] answers; None at
    /// the first run, after a yield, and where the thread is not ready.
    pub fn status(&self) -> Option<u32>
        ensures { result ≡ spec.ended_status self.now }
    {
        match &self.doing {
            Doing::Ready { status, .. } => *status,
            _ => None,
        }
    }

    /// Whether the alerted flag of this mode is set.
    pub fn was_alerted(&self, m: Mode) -> bool
        ensures { result ≡ spec.is_alerted m self.now }
    {
        self.is_alerted(m)
    }

    /// Whether [`ThreadState::release`] would end a wait.
    pub fn ends_by_release(&self) -> bool
        ensures { result ≡ spec.ends_by_release self.now }
    {
        self.waits_for_release()
    }

    /// Whether [`ThreadState::end_delay`] would end the wait.
    pub fn ends_by_expiry(&self, set: u64) -> bool
        ensures { result ≡ spec.ends_by_expiry set self.now }
    {
        self.waits_for_expiry(set)
    }

    /// Whether an alert for this mode would end the wait.
    pub fn ends_by_alert(&self, m: Mode) -> bool
        ensures { result ≡ spec.ends_by_alert m self.now }
    {
        self.waits_for_alert(m)
    }

    /// Whether an APC of this kind would end the wait once it is inserted, whichever object it is
    /// and under whichever number.
    pub fn ends_by_apc(&self, k: ApcKind) -> bool
        ensures { (a : Apc) (n : ℕ) →
            result ≡ spec.ends_by_apc (record { apc = a; kind = k; number = n }) self.now }
    {
        self.waits_for_apc(k)
    }

    /// Whether the APC object would be inserted: it isn't yet, and the thread still takes APCs.
    pub fn takes(&self, a: ApcNo) -> bool
        ensures { result ≡ queues.takes a self.now.apcs }
    {
        self.apcs.open_for(a)
    }

    /// The first user APC.
    pub fn user_first(&self) -> Option<Pick>
        ensures { result ≡ queues.first_user self.now.apcs }
    {
        self.apcs.user_first()
    }
}

/// Whether the mode of a wait is not below that of an alert: kernel is below user.
fn is_not_below(wait: Mode, alert: Mode) -> bool
    ensures { result ≡ spec.not_below wait alert }
{
    match wait {
        Mode::Kernel => alert == Mode::Kernel,
        Mode::User => true,
    }
}
