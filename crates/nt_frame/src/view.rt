//! What callers see of a frame.
use nt_event::{Again, Body};

/// A running routine: what is known of the frame beside its level and its regions.
#[derive(Clone, Copy, PartialEq, Eq, Debug)]
pub struct FrameView {
    /// The frame's name: the number of the event that began it.
    pub frame: u64,
    /// What runs in it.
    pub body: Body,
    /// How many commands its present routine has called.
    pub place: u32,
    /// Whether it is an APC in its kernel routine.
    pub kernel_phase: bool,
    /// Whether it is the base of a thread whose base routine has ended.
    pub leaving: bool,
    /// The wait that it has to take up again, or in which its thread is blocked.
    pub again: Option<Again>,
}
