//! What holds in every run of the machine, and what the laws above stand on. Each function's
//! contract is a law; the functions do nothing.
//!
//! The definitions stand in nt_event; a run is a history each of whose events is the one that its
//! turn gives.
#![tactic(auto)]

ghost use Rattle.nt_runs.specs.Laws.{OwnMoves, LanesMove, TurnsDecide, RunGrows, LevelsHold};
ghost use Rattle.nt_runs.specs.Laws.{RunningHasBase, RobinIsAccepted, SeenWasAsked};
ghost use Rattle.nt_runs.specs.Laws.{RobinEndsSettled, ChosenIsItsTurn, ChosenComes, FactsAgree};
ghost use Rattle.nt_runs.specs.Laws.{EventsAgree, ProcessorsStand, JobsAllowed};

/// What a processor keeps moves as the history does: an event of its own changes it as the
/// definitions of the step say, by the event's number, its due time, its asks and what its lanes
/// tell; an event of another processor leaves it.
pub fn own_moves()
    ensures { OwnMoves }
{}

/// The states of the lanes move as the history does, by the event's number and where its processor
/// stood.
pub fn lanes_move()
    ensures { LanesMove }
{}

/// Turns decide the run: two runs with the same turn limit and the same turns are equal.
pub fn turns_decide_the_run()
    ensures { TurnsDecide }
{}

/// A run goes on by a step, and the event has the turn that gave it.
pub fn run_grows()
    ensures { RunGrows }
{}

/// In a run an event but a Look names the level that its processor has after it.
pub fn levels_hold()
    ensures { LevelsHold }
{}

/// In a run the thread that runs on a processor is one of its own, and its frames are its base
/// frame and those begun on it.
pub fn running_has_base()
    ensures { RunningHasBase }
{}

/// In a run the turn of the robin rule is accepted.
pub fn robin_is_accepted()
    ensures { RobinIsAccepted }
{}

/// In a run what a processor noticed of a class was asked for it.
pub fn seen_was_asked()
    ensures { SeenWasAsked }
{}

/// In a run the robin rule has no turn exactly where the history is settled.
pub fn robin_ends_settled()
    ensures { RobinEndsSettled }
{}

/// In a run, what an uncut processor that picks its threads itself does is what the robin rule's
/// turn of it gives, but for looks.
pub fn chosen_is_its_turn()
    ensures { ChosenIsItsTurn }
{}

/// In a run, a processor that picks its threads itself has something to do exactly where it neither
/// rests nor spins still.
pub fn chosen_comes()
    ensures { ChosenComes }
{}

/// In a run the facts of each thread agree with its frames: it runs where its facts say so, one
/// that does not run has the level and, blocked, the regions with which it stopped, and one that is
/// gone has no frame.
pub fn facts_agree()
    ensures { FactsAgree }
{}

/// In a run the event of a job that is due is told by where its processor stands and the states of
/// the lanes alone: its thread and its level too.
pub fn events_agree()
    ensures { EventsAgree }
{}

/// In a run a processor stands as its lanes say: the thread that runs on it is one of its own, and
/// its facts say that it runs.
pub fn processors_stand()
    ensures { ProcessorsStand }
{}

/// In a run a job that is due is allowed where its processor stands.
pub fn jobs_allowed()
    ensures { JobsAllowed }
{}
