//! What a processor has to do next, beside the place where its event is written.
use nt_event::Job;

/// What a processor has to do next.
#[derive(Clone, Copy, Debug)]
pub enum Next {
    /// The event that was written, which touches no lane.
    Alone,
    /// A job that needs lanes; no event was written.
    Shared(Job),
}
