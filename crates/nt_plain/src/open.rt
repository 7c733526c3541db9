//! The floor in memory as one that is read.
use crate::plain::PlainFloor;
use nt_event::{CpuNo, ThreadNo};
use nt_floor::{OpenFloor, Seen};

impl<'s> OpenFloor for PlainFloor<'s> {
    ghost use Rattle.std.proofs.Common.{refl};

    ghost tells = { λ x. (x.lanes, refl) };

    fn asked(&self, p: CpuNo) -> &[u64] {
        self.words_of(p)
    }

    // No value seen is above that asked for, so one is below it exactly where the sums differ.
    #[inline(always)]
    fn asks_more(&self, p: CpuNo, seen: &Seen) -> bool {
        seen.sum() < self.sum_of_words(p)
    }

    fn asks(&self, n: u64, p: CpuNo, class: u8) -> bool {
        self.has_mark(n, p, class)
    }

    fn next_ready(&self, p: CpuNo, after: Option<ThreadNo>) -> Option<ThreadNo> {
        self.ready_after(p, after)
    }
}
