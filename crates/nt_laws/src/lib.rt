//! Laws over whole runs of the machine. Each function's contract is a law; the functions do
//! nothing.
//!
//! The definitions stand in nt_event; a run is a history each of whose events is the one that its
//! turn gives.
#![tactic(auto)]

mod inserts;
mod locks;

ghost use Rattle.nt_laws.specs.Counts.{MakesAtMostTheLimit, RunIsBounded, UncutHasRoom};
ghost use Rattle.nt_laws.specs.Deliveries.{DeliveriesAreEligible};
ghost use Rattle.nt_laws.specs.Named.{EventsOfARunFit};
ghost use Rattle.nt_laws.specs.Locality.{ChangesOwnLanesOnly, EventLeavesTheSame, KeepsItsPart};
ghost use Rattle.nt_laws.specs.Locality.{StepIsLocal};

pub use inserts::{
    a_delivery_names_a_pending_insert, a_dpc_object_has_at_most_one_pending_insert,
    a_removal_answers_yes_exactly_where_there_was_one,
    an_apc_object_has_at_most_one_pending_insert, an_apc_object_stands_at_most_once,
    apcs_have_their_threads, no_insert_is_delivered_twice, queues_and_objects_agree,
    the_laws_over_inserts_hold_of_every_object, what_is_delivered_waits,
};
pub use locks::{
    a_lane_tells_who_holds_and_spins, a_lock_is_held_by_at_most_one_frame,
    a_processor_spins_on_at_most_one_lock, a_thread_that_does_not_run_holds_no_lock,
};

/// Deliveries are eligible: each Begin, Expire and Flush of a run delivers a request that was
/// eligible just before it.
pub fn deliveries_are_eligible()
    ensures { DeliveriesAreEligible }
{}

/// An event changes the states of its own lanes only: what stands in a lane that it doesn't touch,
/// and what that lane tells of requests, stays.
pub fn an_event_changes_its_own_lanes_only()
    ensures { ChangesOwnLanesOnly }
{}

/// The event of a turn Next or Switch is determined by what its processor keeps and the states of
/// the lanes that it touches: where two runs of one turn limit agree on these, the turn gives the
/// same event after both.
pub fn step_is_local()
    ensures { StepIsLocal }
{}

/// An event that two runs of one length go on by, where they agree on what its processor keeps and
/// on the lanes that it touches, asks for the same after both, touches the same lanes, leaves the
/// same states on them, and its processor keeps the same.
pub fn an_event_leaves_the_same()
    ensures { EventLeavesTheSame }
{}

/// What a processor keeps is determined by its part of the history, with the due times of the
/// delays that it called, and by what it has seen and served of each class.
pub fn a_processor_keeps_its_part()
    ensures { KeepsItsPart }
{}

/// The events of a run fit: of a script that fits, each event of a run names processors, threads,
/// objects and timers of the script, classes and levels that are used, and earlier events; and a
/// look has no thread, level 0, and a value. Whoever writes an event as text needs this: each name
/// that is written exists, and each number has few digits.
pub fn events_of_a_run_fit()
    ensures { EventsOfARunFit }
{}

/// In a run each processor makes at most as many events as the turn limit; so the run has at most
/// as many as all its processors may make, and less where one of them is not cut.
pub fn a_processor_makes_no_more_than_the_limit()
    ensures each { MakesAtMostTheLimit }
    ensures all { RunIsBounded }
    ensures room { UncutHasRoom }
{}
