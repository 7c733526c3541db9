//! Readings of the definitions by positions in the history: where the rules say "no later event
//! uses it up" or "the open frame of greatest number", the questions of the definitions answer
//! exactly that. Each function's contract is a law; the functions do nothing.
#![tactic(auto)]

ghost use Rattle.nt_readings.specs.Inserts.{FirstIsByImportanceAndNumber};
ghost use Rattle.nt_readings.specs.Inserts.{PendingApcIsInsertedAndNotUsedUp};
ghost use Rattle.nt_readings.specs.Inserts.{PendingIsInsertedAndNotUsedUp};
ghost use Rattle.nt_readings.specs.Declared.{CallsFit, InsertsOfFittingScripts};
ghost use Rattle.nt_readings.specs.Fates.{EachInsertHasOneFate, FateIsFirstUse, InsertsAreListed};
ghost use Rattle.nt_readings.specs.Fates.{WaitingAreThePending, WaitingIsPending};
ghost use Rattle.nt_readings.specs.FirstApcs.{FirstApcsAreByKindAndNumber, PendingApcsFall};
ghost use Rattle.nt_readings.specs.Frames.{InnermostIsGreatest, OwnFramesAreOpen};
ghost use Rattle.nt_readings.specs.Frames.{RunningIsLastSwitched, ThreadFramesAreOpen};
ghost use Rattle.nt_readings.specs.Locks.{LocksAreTold};
ghost use Rattle.nt_readings.specs.Phases.{FramesAreTold, WaitsAreTakenUpAsCalled};
ghost use Rattle.nt_readings.specs.Regions.{DeliverableByRegions, RegionsAreCounted};
ghost use Rattle.nt_readings.specs.Seen.{SeenIsGreatestNoticed, ServedIsSeenAtLastService};
ghost use Rattle.nt_readings.specs.Timers.{DelaysAreSetLast, FirstDueKeyIsLeast, TimersAreSetLast};

/// Pending means inserted and not used up: in every run, an insert of a DPC object of the script is
/// pending in a queue exactly where the event of its number put it there and no later event begins
/// or removes it.
pub fn pending_is_inserted_and_not_used_up()
    ensures { PendingIsInsertedAndNotUsedUp }
{}

/// The same of APCs: in every run, an insert of an APC object whose thread the script has is
/// pending at that thread exactly where the event of its number made it and no later event begins,
/// flushes or removes it.
pub fn a_pending_apc_is_inserted_and_not_used_up()
    ensures { PendingApcIsInsertedAndNotUsedUp }
{}

/// The first of a part is the pending insert of High importance of greatest number, else the
/// pending one of least number, and there is none exactly where no insert of the part is pending.
pub fn the_first_of_a_part_is_by_importance_and_number()
    ensures { FirstIsByImportanceAndNumber }
{}

/// The pending APCs of a thread stand by their numbers, the greatest first, and each number is an
/// earlier event's.
pub fn pending_apcs_stand_by_number()
    ensures { PendingApcsFall }
{}

/// The first kernel APC of a thread is the pending special one of least number, else the pending
/// normal one of least number, and the first user APC is the pending user one of least number;
/// there is none exactly where none is pending.
pub fn the_first_apcs_are_by_kind_and_number()
    ensures { FirstApcsAreByKindAndNumber }
{}

/// The fate of an insert is what the first later event that uses it up says: begun by it where it
/// is a Begin, flushed where it is a Flush, removed where it is a call; it waits where no later
/// event uses it up. No other fate is its.
pub fn the_fate_is_the_first_use()
    ensures { FateIsFirstUse }
{}

/// The inserts of a history are those that its events made, and the waiting ones are those of them
/// that no later event uses up.
pub fn inserts_are_listed()
    ensures { InsertsAreListed }
{}

/// Waiting is pending: in a run an insert of a DPC object of the script, or of an APC object whose
/// thread the script has, waits exactly where it is pending in the queue of a processor, or at its
/// thread.
pub fn an_insert_waits_where_it_is_pending()
    ensures { WaitingIsPending }
{}

/// In a run of a script that fits, each command that is called names things that the script has.
pub fn called_commands_fit()
    ensures { CallsFit }
{}

/// In a run of a script that fits, the laws over inserts hold of every object: the object of each
/// insert, or its thread, is one of the script; what is pending was inserted and not used up, and
/// waits; an object has at most one pending insert.
pub fn inserts_of_a_fitting_script()
    ensures { InsertsOfFittingScripts }
{}

/// Seen is what was noticed: in a run, what a processor has seen of a class is the greatest n + 1
/// over the events n that ask for the class on it and that it noticed, else 0. It noticed the event
/// where it made it, where a Look of it has a value of at least n + 1 in the class, or where a
/// later event of it touches a lane that the event touches.
pub fn seen_is_the_greatest_that_was_noticed()
    ensures { SeenIsGreatestNoticed }
{}

/// Served is what was seen at the last service: in a run, what a processor has served of a class is
/// what it had seen just after its last Clean of the class, for the classes 0 to 2, just after its
/// last call with reply spin, for that of released locks, or just after the last Begin of the
/// class's interrupt on it, for the others, else 0.
pub fn served_is_what_was_seen_at_the_last_service()
    ensures { ServedIsSeenAtLastService }
{}

/// The frames of an own part are the open ones: in a run they are exactly those of interrupts, DPCs
/// and threaded DPCs that an event of the processor began and no later End names, by name and body,
/// the greatest number first.
pub fn own_frames_are_the_open_ones()
    ensures { OwnFramesAreOpen }
{}

/// The frames of a thread's part are the open ones: in a run they are exactly the base frame that
/// the first Switch to the thread began, until its Gone, and the others that its Begins and Flushes
/// began, until their Ends, by name and body, the greatest number first.
pub fn thread_frames_are_the_open_ones()
    ensures { ThreadFramesAreOpen }
{}

/// The running thread is the one of the processor's last Switch, where no later event of the
/// processor stops it: a Gone, a wait that blocked or a `yield` that was done.
pub fn the_running_thread_was_switched_to_last()
    ensures { RunningIsLastSwitched }
{}

/// The innermost frame is the open one of greatest number: in a run, the open frame of greatest
/// number on the processor's own part, else the one of greatest number on the part of the thread
/// that runs there, and none exactly where there is none.
pub fn the_innermost_frame_is_the_newest_open_one()
    ensures { InnermostIsGreatest }
{}

/// Each open frame is told by the events of its present phase: in a run its level is the one that
/// the last of these left in it, else its base level: an accepted `raise` or `lower`, its level; an
/// `acquire` that was done or spins, DISPATCH_LEVEL; an `unlock` that was done or a Free, the level
/// that the frame kept with the lock. Its place is the count of its calls in it that do not spin;
/// it is in its kernel routine exactly where it is an APC's and has no Normal; a wait to take up is
/// the last that it called in it, with that call's mode, kind and due time.
pub fn frames_are_told_by_their_present_phase()
    ensures { FramesAreTold }
{}

/// The locks of each open frame are told by its events: in a run it holds a lock exactly where it
/// has an `acquire` of it that was done and no later `unlock` of it that was done and no later Free
/// of it, and it holds them in the order of these; it spins on a lock exactly where its last call
/// in its present phase is an `acquire` of it with reply spin. The level that it keeps with a lock
/// is its level just before the first of the tries of the `acquire` that got it, or of the one that
/// spins.
pub fn locks_are_told_by_the_events_of_their_frame()
    ensures { LocksAreTold }
{}

/// A wait is taken up as it was called: in a run a Rewait takes up the last wait or delay that its
/// frame called in its present phase, with that call's mode, kind and due time.
pub fn a_wait_is_taken_up_as_it_was_called()
    ensures { WaitsAreTakenUpAsCalled }
{}

/// The regions of a thread are counted: in a run, each of its open frames has entered what its
/// accepted enters less its accepted leaves in its present phase say, its critical and guarded
/// regions are the sums of these, and a normal kernel APC is in progress exactly where a frame of
/// one is open.
pub fn regions_are_enters_less_leaves()
    ensures { RegionsAreCounted }
{}

/// Deliverable is by level and regions: an APC is the deliverable one of a thread with these frames
/// exactly where it is the thread's first kernel APC, the innermost frame has level 0, no guarded
/// region is entered and, for a normal one, no critical region is entered and no normal kernel APC
/// is in progress.
pub fn an_apc_is_deliverable_by_level_and_regions()
    ensures { DeliverableByRegions }
{}

/// A timer is set by its last set event: a `settimer` that was answered, or an expiry of it with a
/// period, where it was neither cancelled nor expired since; it is due the named time, or the
/// period, after the time of that event.
pub fn a_timer_is_set_by_its_last_set_event()
    ensures { TimersAreSetLast }
{}

/// A thread's delay is set by its last one that blocked, where it has not expired since: a call of
/// `delay`, due its units after the time of the call, or the wait that was taken up again, with the
/// old due time.
pub fn a_delay_is_set_by_the_last_that_blocked()
    ensures { DelaysAreSetLast }
{}

/// The first due key is the least by due time and number of the set event of the keys that are set
/// and due, and there is none exactly where none is.
pub fn the_first_due_key_is_least()
    ensures { FirstDueKeyIsLeast }
{}

/// Each insert has one fate: in a run of a script that fits, each accepted insert was begun,
/// removed or flushed by the first later event that uses it up, or is pending at the end, and it is
/// exactly one of these; those that a report lists as waiting are those that are pending.
pub fn each_insert_has_one_fate()
    ensures one { EachInsertHasOneFate }
    ensures waiting { WaitingAreThePending }
{}
