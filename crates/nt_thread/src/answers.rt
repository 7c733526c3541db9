//! What a thread is asked for, and what it answers.
use nt_event::Mode;

/// A wait or a delay, at its call and where it is taken up again.
#[derive(Clone, Copy, PartialEq, Eq, Debug)]
pub struct WaitSpec {
    pub mode: Mode,
    pub alertable: bool,
    /// None for a wait; for a delay, whether its due time is reached.
    pub reached: Option<bool>,
    /// The number of the event that waits, under which a delay is set.
    pub set: u64,
}

/// What a wait answers.
#[derive(Clone, Copy, PartialEq, Eq, Debug)]
pub enum WaitAnswer {
    /// It has this status and didn't block.
    Now(u32),
    /// The thread is blocked.
    Blocked,
}

/// What an alert answers.
#[derive(Clone, Copy, PartialEq, Eq, Debug)]
pub struct AlertAnswer {
    /// Whether the alerted flag of the mode was set.
    pub was: bool,
    /// Whether it ended a wait.
    pub ended: bool,
}

/// What the insert of an APC answers.
#[derive(Clone, Copy, PartialEq, Eq, Debug)]
pub struct ApcAnswer {
    /// Whether it is inserted.
    pub yes: bool,
    /// Whether it ended a wait.
    pub ended: bool,
}
