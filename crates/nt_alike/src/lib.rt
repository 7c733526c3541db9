//! Laws of histories that are alike but for the numbers of their events.
//!
//! Two schedules may bring a script to the same state and leave two histories in which frames,
//! inserts and requests have other numbers. But the definitions ask of two numbers only which is
//! less, and whether they are the same. So such histories go on alike. `Alike` says what has to be
//! the same for that: what stands in the lanes and what each processor keeps, without numbers;
//! which of two set keys that are due at one time was set first; and how many asks each processor
//! hasn't noticed, and wouldn't have noticed were it told by a lane. Each event that may come after
//! the one history then has its like after the other, and they leave histories that are alike.
//!
//! So a short list of histories can stand for all of a script. It is closed where each of them,
//! however it goes on, is like one of the list. What none of the list shows no run shows, under any
//! schedule and any turn limit. A monitor may keep a number beside, so that what is shown may rest
//! on what came before. Questions about states have one answer in alike histories, and so has the
//! question whether a history ended quietly. A rank that falls with each event bounds the length of
//! every run. In a script that fits nothing happens on what it does not declare, so it is enough to
//! compare what it declares.
//!
//! Two closed lists are written out: that of the smallest script, and that of the worked row
//! raise-queue-lower.
//!
//! Each function's contract is a law; the functions do nothing. The search of `ntlab` stands on
//! them.
#![tactic(auto)]

ghost use Rattle.nt_alike.specs.Alike.{AlikeGoOn};
ghost use Rattle.nt_alike.specs.Closed.{ClosedListsTellNever};
ghost use Rattle.nt_alike.specs.Declared.{DeclaredAreAlike, NothingBeyond};
ghost use Rattle.nt_alike.specs.Ends.{AlikeAreQuiet, ClosedListsTellOfEnds};
ghost use Rattle.nt_alike.specs.Free.{FreeRunsAreRuns, RunsAreFree};
ghost use Rattle.nt_alike.specs.Monitors.{ClosedListsTellNeverWith};
ghost use Rattle.nt_alike.specs.Parts.{AsksAreBare, FactsAreBare, JobsAreBare, LanesAreBare};
ghost use Rattle.nt_alike.specs.Parts.{ObjectsAreBare, QueuesAreBare};
ghost use Rattle.nt_alike.specs.Questions.{AlikeAnswerAlike, AlikeStandAlike};
ghost use Rattle.nt_alike.specs.RaiseQueueLower.{DpcBeginsOnce, DpcWaitsForTheLower, RowEnds};
ghost use Rattle.nt_alike.specs.RaiseQueueLower.{RowIsClosed, RowIsRanked};
ghost use Rattle.nt_alike.specs.Ranks.{RanksBoundRuns};
ghost use Rattle.nt_alike.specs.Smallest.{OnlyRests};

// ---- runs at no turn limit

/// A run at any turn limit is a free run, one at no limit.
pub fn runs_are_free()
    ensures { RunsAreFree }
{}

/// A free run is a run at each limit from its length on.
pub fn free_runs_are_runs()
    ensures { FreeRunsAreRuns }
{}

// ---- steps on the way: what the bare event and the bare states tell

/// What an event leaves of a DPC object, but for numbers, is told by the event and the object but
/// for numbers.
pub fn objects_are_bare()
    ensures { ObjectsAreBare }
{}

/// The same of a DPC queue.
pub fn queues_are_bare()
    ensures { QueuesAreBare }
{}

/// The same of the facts of a thread.
pub fn facts_are_bare()
    ensures { FactsAreBare }
{}

/// The event of a job, but for numbers, is told by where its processor stands and what stands in
/// the lanes, without all numbers but those of the timers.
pub fn jobs_are_bare()
    ensures { JobsAreBare }
{}

/// What an event asks for is told so too.
pub fn asks_are_bare()
    ensures { AsksAreBare }
{}

/// And so is which lanes it touches.
pub fn lanes_are_bare()
    ensures { LanesAreBare }
{}

// ---- histories that are alike

/// Where two free runs are alike, each event that may come after the one has its like after the
/// other, and they leave histories that are alike.
pub fn alike_histories_go_on_alike()
    ensures { AlikeGoOn }
{}

/// Every question about what processors keep and what stands in the lanes, but for numbers, has one
/// answer after histories that are alike.
pub fn questions_are_answered_alike()
    ensures { AlikeAnswerAlike }
{}

/// So each processor is at the same level, runs the same thread and has the same frames open, each
/// thread does the same, the same DPC and APC objects are inserted, the same timers are set, and
/// each spin lock is held by the same processor and spun on by the same ones.
pub fn alike_histories_stand_alike()
    ensures { AlikeStandAlike }
{}

/// Of histories that are alike both are quiet or neither is: each processor rests or spins still,
/// and has seen what was asked.
pub fn alike_histories_are_quiet_alike()
    ensures { AlikeAreQuiet }
{}

/// In a run of a script that fits, at any turn limit, each event is by a processor of the script,
/// asks processors of the script alone and for used classes alone, and touches lanes of the script
/// alone.
pub fn nothing_happens_on_what_is_not_declared()
    ensures { NothingBeyond }
{}

/// So free runs of a script that fits are alike where they are so in the processors, lanes and keys
/// that it declares and in the used classes.
pub fn histories_alike_in_what_is_declared_are_alike()
    ensures { DeclaredAreAlike }
{}

// ---- closed lists

/// Where a list of histories is closed and none of them can go on by an event that the test finds,
/// no run of the script has such an event, under any schedule and any turn limit.
pub fn a_closed_list_tells_never()
    ensures { ClosedListsTellNever }
{}

/// The same with a monitor: what the test finds may rest on what came before.
pub fn a_closed_list_tells_never_with_a_monitor()
    ensures { ClosedListsTellNeverWith }
{}

/// Where none of a closed list is quiet with the monitor keeping what is bad, no run ends quietly
/// so.
pub fn a_closed_list_tells_of_ends()
    ensures { ClosedListsTellOfEnds }
{}

/// Where a closed list has ranks that fall with each event, no run of the script has more events
/// than the bound.
pub fn ranks_bound_every_run()
    ensures { RanksBoundRuns }
{}

// ---- two closed lists

/// Of a script of one processor and nothing else, the histories with no event and with one Rest are
/// a closed list, and only Rest ever comes.
pub fn on_the_smallest_script_nothing_else_comes()
    ensures { OnlyRests }
{}

/// The histories of the worked row raise-queue-lower, as they are written out, are a closed list,
/// whatever a monitor keeps.
pub fn raise_queue_lower_is_closed()
    ensures { RowIsClosed }
{}

/// It has ranks: how many events are still to come.
pub fn raise_queue_lower_is_ranked()
    ensures { RowIsRanked }
{}

/// Its DPC never begins while the processor is at DISPATCH_LEVEL or above, under any schedule and
/// any turn limit.
pub fn raise_queue_lower_begins_no_dpc_at_dispatch()
    ensures { DpcWaitsForTheLower }
{}

/// In each run of it that ends quietly the DPC has begun once.
pub fn raise_queue_lower_begins_its_dpc_once()
    ensures { DpcBeginsOnce }
{}

/// No run of it has more events than the worked one.
pub fn raise_queue_lower_ends()
    ensures { RowEnds }
{}
