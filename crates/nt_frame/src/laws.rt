//! Laws over the definitions: the frames of a history are what a list of calls leaves.
ghost use Rattle.nt_frame.specs.EventCalls.{EventsAreCalls, HistoriesAreCalls};

/// What each event of a processor leaves of its frames is what the calls for it leave.
pub fn events_are_calls()
    ensures { EventsAreCalls }
{}

/// The frames of a processor in a history are what the calls for its events leave, one after
/// another, beginning with none. So [`crate::perform_all`] on these calls gives them.
pub fn histories_are_calls()
    ensures { HistoriesAreCalls }
{}
