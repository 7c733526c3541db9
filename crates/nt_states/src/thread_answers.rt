//! The questions about threads.
use nt_event::{ApcNo, CpuNo, Level, Mode, Pick, Regions, Reply, Script, ThreadNo};

/// What the states of a script's threads answer, each of a thread that they may be asked of.
///
/// Who gets them from a value over lanes ([`threads`](crate::LaneAnswers::threads)) may ask of the
/// threads whose lane is held there, and of no others: the facts that they tell of those may be
/// any.
pub trait ThreadAnswers {
    ghost use Rattle.std.specs.Prelude.{◌≡◌, IfSome, IsTrue, List, not, ℕ};
    ghost use Rattle.nt_event.specs.declared.numbers.CpuNo.{CpuNo};
    ghost use Rattle.nt_event.specs.declared.scripts.Script.{Script};
    ghost use Rattle.nt_event.specs.Apcs as apcs;
    ghost use Rattle.nt_event.specs.Jobs as jobs;
    ghost use Rattle.nt_event.specs.Lanes.{Lanes};
    ghost use Rattle.nt_event.specs.Lists.{is_null};
    ghost use Rattle.nt_event.specs.Routines.{cpu_of, owner_of};
    ghost use Rattle.nt_event.specs.Script.{has_apc, has_thread};
    ghost use Rattle.nt_event.specs.Threads as threads;
    ghost use Rattle.nt_event.specs.Threads.{ThreadFacts};
    ghost use Rattle.nt_event.specs.Waits as waits;
    ghost use Rattle.nt_states.specs.Given.{IsTaken};
    ghost use Rattle.nt_states.specs.ThreadLanes.{facts_among};

    /// The script.
    ghost script_of: { Self → Script };

    /// The facts of the threads in order, as they tell them.
    ghost facts: { Self → List ThreadFacts };

    /// They may be asked of the threads of this processor.
    ghost tells: { Self → CpuNo → Type 0 };

    // ---- the threads of a processor

    /// The thread that the processor takes up next: the ready one of its threads of least number
    /// above the one that it took last, else of least number. None exactly where none is ready.
    fn next_ready(&self, p: CpuNo, after: Option<ThreadNo>) -> Option<ThreadNo>
        requires told { tells self.now p }
        ensures next { (l : Lanes) → l.threads ≡ facts self.now →
            result ≡ jobs.next_ready (script_of self.now) p after l }
        ensures taken { IfSome result (IsTaken (script_of self.now) p) };

    /// Whether one of the processor's threads is ready.
    fn any_ready(&self, p: CpuNo) -> bool
        requires told { tells self.now p }
        ensures { (l : Lanes) → l.threads ≡ facts self.now →
            result ≡ not (is_null (jobs.ready (script_of self.now) p l)) };

    /// Whether the processor may take up the thread: it is one of the processor's, and ready. No
    /// number past the last thread is.
    fn may_take(&self, p: CpuNo, t: ThreadNo) -> bool
        requires told { tells self.now p }
        ensures value { (l : Lanes) → l.threads ≡ facts self.now →
            result ≡ jobs.may_take (script_of self.now) p t l }
        ensures taken { IsTrue result → IsTaken (script_of self.now) p t };

    // ---- what a thread is doing

    /// Whether the thread is gone.
    fn is_gone(&self, t: ThreadNo) -> bool
        requires thread { IsTrue (has_thread (script_of self.now) t) }
        requires told { tells self.now (cpu_of (script_of self.now) t) }
        ensures { result ≡ threads.is_gone (facts_among (facts self.now) t) };

    /// The status of the wait that ended, which the thread's next Switch carries; None at its first
    /// run, after a yield, and where it is not ready.
    fn status(&self, t: ThreadNo) -> Option<u32>
        requires thread { IsTrue (has_thread (script_of self.now) t) }
        requires told { tells self.now (cpu_of (script_of self.now) t) }
        ensures { result ≡ threads.ended_status (facts_among (facts self.now) t) };

    /// The level at which the thread is taken up: the one at which it last blocked or gave way,
    /// PASSIVE before its first run.
    fn level(&self, t: ThreadNo) -> Level
        requires thread { IsTrue (has_thread (script_of self.now) t) }
        requires told { tells self.now (cpu_of (script_of self.now) t) }
        ensures { result ≡ threads.doing_level (facts_among (facts self.now) t).doing };

    // ---- waits and alerts

    /// What a wait of the thread of this mode replies at this level and in these regions. `reached`
    /// is None for a wait; for a delay, whether its due time is reached.
    fn wait_reply(
        &self,
        t: ThreadNo,
        regions: Regions,
        level: Level,
        mode: Mode,
        alertable: bool,
        reached: Option<bool>,
    ) -> Reply
        requires thread { IsTrue (has_thread (script_of self.now) t) }
        requires told { tells self.now (cpu_of (script_of self.now) t) }
        ensures { result ≡ waits.wait_reply (facts_among (facts self.now) t) regions level mode
            alertable reached };

    /// Whether the thread's alerted flag of this mode is set.
    fn is_alerted(&self, t: ThreadNo, mode: Mode) -> bool
        requires thread { IsTrue (has_thread (script_of self.now) t) }
        requires told { tells self.now (cpu_of (script_of self.now) t) }
        ensures { result ≡ threads.is_alerted mode (facts_among (facts self.now) t) };

    /// Whether a release would end a wait of the thread.
    fn ends_by_release(&self, t: ThreadNo) -> bool
        requires thread { IsTrue (has_thread (script_of self.now) t) }
        requires told { tells self.now (cpu_of (script_of self.now) t) }
        ensures { result ≡ threads.ends_by_release (facts_among (facts self.now) t) };

    /// Whether the expiry of the delay that was set under this number would end the thread's delay.
    fn ends_by_expiry(&self, t: ThreadNo, from: u64) -> bool
        requires thread { IsTrue (has_thread (script_of self.now) t) }
        requires told { tells self.now (cpu_of (script_of self.now) t) }
        ensures { result ≡ threads.ends_by_expiry from (facts_among (facts self.now) t) };

    /// Whether an alert for this mode would end a wait of the thread.
    fn ends_by_alert(&self, t: ThreadNo, mode: Mode) -> bool
        requires thread { IsTrue (has_thread (script_of self.now) t) }
        requires told { tells self.now (cpu_of (script_of self.now) t) }
        ensures { result ≡ threads.ends_by_alert mode (facts_among (facts self.now) t) };

    // ---- APCs

    /// The thread's first kernel APC, where it is let through at this level and in these regions.
    fn deliverable(&self, t: ThreadNo, regions: Regions, level: Level) -> Option<Pick>
        requires thread { IsTrue (has_thread (script_of self.now) t) }
        requires told { tells self.now (cpu_of (script_of self.now) t) }
        ensures value { result
            ≡ apcs.deliverable (facts_among (facts self.now) t).apcs regions level }
        ensures named { IfSome result (λ x. IsTrue (has_apc (script_of self.now) x.apc)) };

    /// The thread's user APC that is due on the way to user mode: the first one, where the
    /// user-pending mark is set.
    fn user_due(&self, t: ThreadNo) -> Option<Pick>
        requires thread { IsTrue (has_thread (script_of self.now) t) }
        requires told { tells self.now (cpu_of (script_of self.now) t) }
        ensures value { result ≡ jobs.user_due (facts_among (facts self.now) t) }
        ensures named { IfSome result (λ x. IsTrue (has_apc (script_of self.now) x.apc)) };

    /// The thread's first user APC.
    fn user_first(&self, t: ThreadNo) -> Option<Pick>
        requires thread { IsTrue (has_thread (script_of self.now) t) }
        requires told { tells self.now (cpu_of (script_of self.now) t) }
        ensures value { result ≡ apcs.first_user (facts_among (facts self.now) t).apcs }
        ensures named { IfSome result (λ x. IsTrue (has_apc (script_of self.now) x.apc)) };

    /// Whether the thread has a kernel APC queued.
    fn has_kernel(&self, t: ThreadNo) -> bool
        requires thread { IsTrue (has_thread (script_of self.now) t) }
        requires told { tells self.now (cpu_of (script_of self.now) t) }
        ensures { result ≡ apcs.has_kernel (facts_among (facts self.now) t).apcs };

    /// Whether the APC object would be inserted: it isn't yet, and its thread still takes APCs.
    fn takes(&self, a: ApcNo) -> bool
        requires object { IsTrue (has_apc (script_of self.now) a) }
        requires told { tells self.now
            (cpu_of (script_of self.now) (owner_of (script_of self.now) a)) }
        ensures { result
            ≡ apcs.takes a (facts_among (facts self.now) (owner_of (script_of self.now) a)).apcs };

    /// Whether the APC object is inserted.
    fn is_inserted(&self, a: ApcNo) -> bool
        requires object { IsTrue (has_apc (script_of self.now) a) }
        requires told { tells self.now
            (cpu_of (script_of self.now) (owner_of (script_of self.now) a)) }
        ensures { result ≡ apcs.is_inserted a
            (facts_among (facts self.now) (owner_of (script_of self.now) a)).apcs };

    /// Whether an insert of the APC object ends a wait of its thread, whatever its number is.
    fn ends_by_apc(&self, a: ApcNo) -> bool
        requires object { IsTrue (has_apc (script_of self.now) a) }
        requires told { tells self.now
            (cpu_of (script_of self.now) (owner_of (script_of self.now) a)) }
        ensures { (n : ℕ) →
            result ≡ threads.ends_by_apc (waits.new_pick (script_of self.now) a n)
            (facts_among (facts self.now) (owner_of (script_of self.now) a)) };
}
