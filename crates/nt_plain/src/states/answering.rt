//! What the states of all lanes answer: each of them is held.
use super::States;
use nt_event::{CpuNo, DpcNo, LockNo, Part, Script, TimerKey, TimerNo};
use nt_states::LaneAnswers;
use nt_thread_lanes::Threads;

impl<'s> LaneAnswers for States<'s> {
    type Threads = Threads<'s>;

    ghost script_of = { λ x. x.script };

    ghost lanes = { λ x. x.lanes };

    ghost holds = { λ x l. Unit {0} };

    fn script(&self) -> &Script {
        self.sound();
        self.whole_script()
    }

    fn is_queued(&self, d: DpcNo) -> bool {
        self.dpcs().is_queued(d)
    }

    fn queue_for(&self, d: DpcNo, by: CpuNo) -> CpuNo {
        self.dpcs().queue_for(d, by)
    }

    fn standing(&self, d: DpcNo) -> Option<CpuNo> {
        self.dpcs().standing(d)
    }

    fn first(&self, part: Part, p: CpuNo) -> Option<(DpcNo, u64)> {
        self.dpcs().first(part, p)
    }

    fn ask(&self, d: DpcNo, by: CpuNo) -> Option<u8> {
        self.dpcs().ask(d, by)
    }

    fn threads(&self) -> &Threads<'s> {
        &self.threads
    }

    fn now(&self) -> u64 {
        self.timers().now()
    }

    fn is_set(&self, t: TimerNo) -> bool {
        self.timers().is_set(t)
    }

    fn first_due(&self) -> Option<(TimerKey, u64)> {
        self.sound();
        self.timers().first_due()
    }

    fn is_free(&self, k: LockNo) -> bool {
        self.lock(k).is_free()
    }

    fn spinners(&self, k: LockNo) -> &[bool] {
        self.lock(k).spinners()
    }
}
