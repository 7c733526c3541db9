//! What a search goes by.
use nt_event::Script;
use nt_expect::{Expectation, Watched};

/// What a search goes by.
#[derive(Drop)]
pub(crate) struct Plan<'s> {
    pub(crate) script: &'s Script,
    /// How many events a processor may make on the way to a state.
    pub(crate) limit: u32,
    /// How many states it may find.
    pub(crate) most: u32,
    pub(crate) expectations: &'s [Expectation],
    /// The events that the expectations watch for, in their order.
    pub(crate) watched: Vec<Watched>,
}

/// How many bytes the machines that are kept may take for each state that was found.
const BYTES: usize = 32;

impl<'s> Plan<'s> {
    /// About how many bytes a machine takes: each processor has room for frames of its own and of
    /// each thread, and each thread for APCs.
    fn machine_bytes(&self) -> usize {
        let threads = self.script.threads.len();
        let frames = threads.saturating_mul(4).saturating_add(13);
        let cpus = usize::from(self.script.cpus);
        let apcs = threads.saturating_add(1).saturating_mul(4_096);
        cpus.saturating_mul(frames)
            .saturating_mul(256)
            .saturating_add(apcs)
    }

    /// How many machines may be kept where so many states were found.
    pub(crate) fn room(&self, found: usize) -> usize {
        (found.saturating_mul(BYTES) / self.machine_bytes().max(1)).saturating_add(2)
    }
}
