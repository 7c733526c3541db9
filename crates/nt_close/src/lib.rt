//! Laws of the close: what a settled run leaves. Each function's contract is a law; the functions
//! do nothing.
//!
//! The definitions stand in nt_event. A history is settled where each processor is cut, or rests or
//! spins still and has seen what was asked.
#![tactic(auto)]

ghost use Rattle.nt_close.specs.Close.{DueKeyIsOwed, NoDpcIsLeft, NoDueKeyIsLeft, NoThreadIsLeft};
ghost use Rattle.nt_close.specs.Close.{NothingIsEligible, NothingWaitsBehindABlock};
ghost use Rattle.nt_close.specs.Close.{OrdinaryIsWanted, ReadyIsWanted, SpunLocksAreHeldElsewhere};
ghost use Rattle.nt_close.specs.Close.{ThreadedIsWanted};

/// A pending threaded DPC is wanted: in every run, while one is pending in the queue of a processor
/// of the script, class 0, that of threaded DPCs, was asked for there, and no event that served the
/// class had noticed this yet.
pub fn a_pending_threaded_dpc_is_wanted()
    ensures { ThreadedIsWanted }
{}

/// A pending ordinary DPC is wanted at rest: in every run, while one is pending in the queue of a
/// processor of the script that rests, class 2, that of the dispatch interrupt, was asked for
/// there, and no event that served the class had noticed this yet.
pub fn a_pending_ordinary_dpc_is_wanted_at_rest()
    ensures { OrdinaryIsWanted }
{}

/// A ready thread is wanted at rest: in every run, while a thread is ready whose processor rests,
/// class 2 was asked for there, and no event that served the class had noticed this yet.
pub fn a_ready_thread_is_wanted_at_rest()
    ensures { ReadyIsWanted }
{}

/// A due key is owed: in every run, while a timer or a delay is due, some processor of the script
/// owes a sweep of the timers, or class 13, that of the clock interrupt, was asked for there, and
/// no event that served the class had noticed this yet.
pub fn a_due_key_is_owed()
    ensures { DueKeyIsOwed }
{}

/// Nothing is eligible at the close: in a settled run, no request may be delivered on a processor
/// of the script that isn't cut.
pub fn nothing_is_eligible()
    ensures { NothingIsEligible }
{}

/// No DPC is left at the close: in a settled run, no DPC is pending in the queue of a processor of
/// the script that isn't cut and rests.
pub fn no_dpc_is_left()
    ensures { NoDpcIsLeft }
{}

/// No thread is left at the close: in a settled run, each thread of a processor that isn't cut and
/// rests is blocked or gone.
pub fn no_thread_is_left()
    ensures { NoThreadIsLeft }
{}

/// Nothing waits behind a block: in every run, so in a settled one too, a thread that is blocked in
/// a wait has no kernel APC that is deliverable at the level and in the regions of the wait, and
/// where the wait is an alertable one of user mode no user APC.
pub fn nothing_waits_behind_a_block()
    ensures { NothingWaitsBehindABlock }
{}

/// A due key is left only where a processor is cut or spins still: in a settled run in which no
/// processor of the script is cut or spins still, no timer and no delay is due.
pub fn a_due_key_is_left_only_where_a_processor_is_cut_or_spins()
    ensures { NoDueKeyIsLeft }
{}

/// A spun lock is held elsewhere: in a settled run, where a frame of a processor that is not cut
/// spins on a lock, a frame of another processor holds it, and that one is cut or spins still.
pub fn a_spun_lock_is_held_elsewhere()
    ensures { SpunLocksAreHeldElsewhere }
{}
