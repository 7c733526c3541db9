//! What is asked: why a thing has not run yet, after the first events of a history.
use crate::fates::Object;
use nt_event::Script;
use nt_history::Briefs;

/// What is asked.
#[derive(Clone, Copy)]
pub(crate) struct Question<'a> {
    pub script: &'a Script,
    pub events: Briefs<'a>,
    /// How many events each processor may make.
    pub turns: u32,
    /// How many of the events count.
    pub end: usize,
    pub object: Object,
}

/// The first events of a run, and what they are a run of.
#[derive(Clone, Copy)]
pub(crate) struct Course<'a> {
    pub script: &'a Script,
    pub events: Briefs<'a>,
    /// How many events each processor may make.
    pub turns: u32,
    /// How many of the events count.
    pub end: usize,
}

/// What the lines of a waiting insert speak of.
#[derive(Clone, Copy)]
pub(crate) struct Case {
    /// The number of the insert.
    pub at: u64,
    /// Whether the next event of its processor delivers it.
    pub free: bool,
    /// The number of the event since which the processor stands as it does.
    pub stood: Option<u64>,
    /// The number of the event that noticed the last request.
    pub noticed: Option<u64>,
    /// The number of the event since which the thread of an APC object does what it does.
    pub away: Option<u64>,
}
