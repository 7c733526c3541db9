//! Worked rows: scripts whose robin runs were worked out by hand, beside what the definitions give.
//!
//! Each function here is a law without parameters or body: its contract says that the script fits,
//! that the robin run that the definitions of nt_event give for it from nothing is this history,
//! event for event, and that the history is settled. The prover computes each from the definitions.
//! So a definition that says something else than was meant is refused by a row.
#![tactic(auto)]

ghost use Rattle.nt_rows.specs.Rows.{IsWorked, IsReplayed, IsUnfinished, IsMade};
ghost use Rattle.nt_rows.specs.Alerts as alerts_row;
ghost use Rattle.nt_rows.specs.BusyTarget as busy_target_row;
ghost use Rattle.nt_rows.specs.Delay as delay_row;
ghost use Rattle.nt_rows.specs.DepthLimit as depth_limit_row;
ghost use Rattle.nt_rows.specs.DriverInUse as driver_in_use_row;
ghost use Rattle.nt_rows.specs.IdleTarget as idle_target_row;
ghost use Rattle.nt_rows.specs.ImportanceOrder as importance_order_row;
ghost use Rattle.nt_rows.specs.InterruptInInterrupt as interrupt_in_interrupt_row;
ghost use Rattle.nt_rows.specs.InterruptOtherProcessor as interrupt_other_processor_row;
ghost use Rattle.nt_rows.specs.LatePeriodicTimer as late_periodic_timer_row;
ghost use Rattle.nt_rows.specs.LowerBelowBase as lower_below_base_row;
ghost use Rattle.nt_rows.specs.NestedInterrupts as nested_interrupts_row;
ghost use Rattle.nt_rows.specs.OneService as one_service_row;
ghost use Rattle.nt_rows.specs.QueueUnqueue as queue_unqueue_row;
ghost use Rattle.nt_rows.specs.RaiseQueueLower as raise_queue_lower_row;
ghost use Rattle.nt_rows.specs.RefusedLevels as refused_levels_row;
ghost use Rattle.nt_rows.specs.Regions as regions_row;
ghost use Rattle.nt_rows.specs.RestNoticesALane as rest_notices_a_lane_row;
ghost use Rattle.nt_rows.specs.Rundown as rundown_row;
ghost use Rattle.nt_rows.specs.ThreadedDpc as threaded_dpc_row;
ghost use Rattle.nt_rows.specs.ThreadedOff as threaded_off_row;
ghost use Rattle.nt_rows.specs.TimersExpire as timers_expire_row;
ghost use Rattle.nt_rows.specs.UserApcsAlertable as user_apcs_alertable_row;
ghost use Rattle.nt_rows.specs.UserApcsPlain as user_apcs_plain_row;
ghost use Rattle.nt_rows.specs.WaitAndKernelApc as wait_and_kernel_apc_row;
ghost use Rattle.nt_rows.specs.KernelApcBeforeSatisfied as kernel_apc_before_satisfied_row;
ghost use Rattle.nt_rows.specs.NormalInNormal as normal_in_normal_row;
ghost use Rattle.nt_rows.specs.ReleasedOnce as released_once_row;
ghost use Rattle.nt_rows.specs.SwitchAsksAgain as switch_asks_again_row;
ghost use Rattle.nt_rows.specs.RefusalsByLevel as refusals_by_level_row;
ghost use Rattle.nt_rows.specs.RefusalsOfADpc as refusals_of_a_dpc_row;
ghost use Rattle.nt_rows.specs.ClockAndIpiRoutines as clock_and_ipi_routines_row;
ghost use Rattle.nt_rows.specs.TargetsAndImportance as targets_and_importance_row;
ghost use Rattle.nt_rows.specs.ThreadedOffDepth0 as threaded_off_depth_0_row;
ghost use Rattle.nt_rows.specs.RemovedApcs as removed_apcs_row;
ghost use Rattle.nt_rows.specs.UserApcEndsAWait as user_apc_ends_a_wait_row;
ghost use Rattle.nt_rows.specs.AlertsOfBothModes as alerts_of_both_modes_row;
ghost use Rattle.nt_rows.specs.WaitReleasedBefore as wait_released_before_row;
ghost use Rattle.nt_rows.specs.DoorsAndGone as doors_and_gone_row;
ghost use Rattle.nt_rows.specs.YieldTakesTurns as yield_takes_turns_row;
ghost use Rattle.nt_rows.specs.ReleaseEndsAWait as release_ends_a_wait_row;
ghost use Rattle.nt_rows.specs.DelayOfUserMode as delay_of_user_mode_row;
ghost use Rattle.nt_rows.specs.UnqueueTellsALane as unqueue_tells_a_lane_row;
ghost use Rattle.nt_rows.specs.ApcTellsALane as apc_tells_a_lane_row;
ghost use Rattle.nt_rows.specs.BusyAgain as busy_again_row;
ghost use Rattle.nt_rows.specs.DelayOverAtRewait as delay_over_at_rewait_row;
ghost use Rattle.nt_rows.specs.ApcsInANormalRoutine as apcs_in_a_normal_routine_row;
ghost use Rattle.nt_rows.specs.TouserWithoutTheMark as touser_without_the_mark_row;
ghost use Rattle.nt_rows.specs.CutAtTheLimit as cut_at_the_limit_row;
ghost use Rattle.nt_rows.specs.RefusedTurns as refused_turns_row;
ghost use Rattle.nt_rows.specs.DeepTarget as deep_target_row;
ghost use Rattle.nt_rows.specs.OwnIdleQueue as own_idle_queue_row;
ghost use Rattle.nt_rows.specs.TargetAfterInsert as target_after_insert_row;
ghost use Rattle.nt_rows.specs.DpcApcThreaded as dpc_apc_threaded_row;
ghost use Rattle.nt_rows.specs.StaleDelay as stale_delay_row;
ghost use Rattle.nt_rows.specs.MarksCleared as marks_cleared_row;
ghost use Rattle.nt_rows.specs.OrderOfTests as order_of_tests_row;
ghost use Rattle.nt_rows.specs.AlertOfAGoneThread as alert_of_a_gone_thread_row;
ghost use Rattle.nt_rows.specs.RegionsGivenUp as regions_given_up_row;
ghost use Rattle.nt_rows.specs.HeldLevels as held_levels_row;
ghost use Rattle.nt_rows.specs.SpinLock as spin_lock_row;
ghost use Rattle.nt_rows.specs.SpinDeadlock as spin_deadlock_row;
ghost use Rattle.nt_rows.specs.SpinRefusals as spin_refusals_row;
ghost use Rattle.nt_rows.specs.LockTriedAgain as lock_tried_again_row;
ghost use Rattle.nt_rows.specs.LockTakenBeforeTheSpinner as lock_taken_before_the_spinner_row;
ghost use Rattle.nt_rows.specs.LockLevelOfTheFirstTry as lock_level_of_the_first_try_row;
ghost use Rattle.nt_rows.specs.LocksFreedAtTheEnd as locks_freed_at_the_end_row;
ghost use Rattle.nt_rows.specs.LockCycleOfThree as lock_cycle_of_three_row;
ghost use Rattle.nt_rows.specs.InterruptWhileSpinning as interrupt_while_spinning_row;
ghost use Rattle.nt_rows.specs.ApcsWaitForALock as apcs_wait_for_a_lock_row;
ghost use Rattle.nt_rows.specs.TimerDueBehindSpinners as timer_due_behind_spinners_row;
ghost use Rattle.nt_rows.specs.CutWhileHolding as cut_while_holding_row;
ghost use Rattle.nt_rows.specs.MediumAgain as medium_again_row;
ghost use Rattle.nt_rows.specs.FireToAnotherProcessor as fire_to_another_processor_row;
ghost use Rattle.nt_rows.specs.AlertEndsADelay as alert_ends_a_delay_row;
ghost use Rattle.nt_rows.specs.DoorsClosedInADelay as doors_closed_in_a_delay_row;
ghost use Rattle.nt_rows.specs.RegionLeftByAKernelRoutine as region_left_by_a_kernel_routine_row;
ghost use Rattle.nt_rows.specs.SpecialInANormalRoutine as special_in_a_normal_routine_row;
ghost use Rattle.nt_rows.specs.WaitInterruptedAgain as wait_interrupted_again_row;
ghost use Rattle.nt_rows.specs.WaitInterruptedAtItsCall as wait_interrupted_at_its_call_row;
ghost use Rattle.nt_rows.specs.WaitTakenUpAndAlerted as wait_taken_up_and_alerted_row;
ghost use Rattle.nt_rows.specs.WaitTakenUpForAUserApc as wait_taken_up_for_a_user_apc_row;

// ---- Levels and frames

/// A thread raises to DISPATCH_LEVEL, queues a DPC and lowers: the DPC runs before the thread goes
/// on.
pub fn raise_queue_lower()
    ensures { IsWorked raise_queue_lower_row.script 10000 raise_queue_lower_row.history }
{}

/// A raise to a lower level and a lower to a higher one are refused, and the script goes on.
pub fn refused_levels()
    ensures { IsWorked refused_levels_row.script 10000 refused_levels_row.history }
{}

/// A DPC that lowers below DISPATCH_LEVEL is refused.
pub fn lower_below_base()
    ensures { IsWorked lower_below_base_row.script 10000 lower_below_base_row.history }
{}

/// A device interrupt is interrupted by a higher one, queues a DPC, and that inserts a kernel APC.
pub fn nested_interrupts()
    ensures { IsWorked nested_interrupts_row.script 10000 nested_interrupts_row.history }
{}

/// Two requests of one level before service give one service.
pub fn one_service()
    ensures { IsWorked one_service_row.script 10000 one_service_row.history }
{}

/// An interrupt routine requests a higher and a lower interrupt.
pub fn interrupt_in_interrupt()
    ensures { IsWorked interrupt_in_interrupt_row.script 10000 interrupt_in_interrupt_row.history }
{}

/// A thread requests an interrupt on another processor, which notices it by a look.
pub fn interrupt_other_processor()
    ensures { IsWorked interrupt_other_processor_row.script 10000
        interrupt_other_processor_row.history }
{}

/// A thread is refused what its level, its routine or its regions forbid, and the test of lowest
/// number decides.
pub fn refusals_by_level()
    ensures { IsWorked refusals_by_level_row.script 10000 refusals_by_level_row.history }
{}

/// A DPC is refused what only a thread may call and, raised above DISPATCH_LEVEL, what stops at
/// that level too.
pub fn refusals_of_a_dpc()
    ensures { IsWorked refusals_of_a_dpc_row.script 10000 refusals_of_a_dpc_row.history }
{}

/// The routines of levels 13 and 14 run at their levels, and a raise to 14 holds back the interrupt
/// of 14.
pub fn clock_and_ipi_routines()
    ensures { IsWorked clock_and_ipi_routines_row.script 10000 clock_and_ipi_routines_row.history }
{}

/// A raise and a lower to the level that holds are done, regions are refused at DISPATCH_LEVEL, and
/// of two interrupts the higher begins first.
pub fn held_levels()
    ensures { IsWorked held_levels_row.script 10000 held_levels_row.history }
{}

/// Where all are due, a DPC comes before a kernel APC, and that before a threaded DPC.
pub fn dpc_apc_threaded()
    ensures { IsWorked dpc_apc_threaded_row.script 10000 dpc_apc_threaded_row.history }
{}

// ---- DPC objects

/// High importance goes to the front of the queue, the others to the back.
pub fn importance_order()
    ensures { IsWorked importance_order_row.script 10000 importance_order_row.history }
{}

/// DPCs of low importance wait until the queue is deeper than the limit.
pub fn depth_limit()
    ensures { IsWorked depth_limit_row.script 10000 depth_limit_row.history }
{}

/// An insert for another processor that is not idle asks for nothing, and runs when that processor
/// has no thread.
pub fn busy_target()
    ensures { IsWorked busy_target_row.script 10000 busy_target_row.history }
{}

/// An insert for an idle processor asks it to dispatch.
pub fn idle_target()
    ensures { IsWorked idle_target_row.script 10000 idle_target_row.history }
{}

/// An object is queued once, and is removed once.
pub fn queue_unqueue()
    ensures { IsWorked queue_unqueue_row.script 10000 queue_unqueue_row.history }
{}

/// A threaded DPC runs at PASSIVE_LEVEL.
pub fn threaded_dpc()
    ensures { IsWorked threaded_dpc_row.script 10000 threaded_dpc_row.history }
{}

/// With threaded DPCs switched off it is an ordinary DPC.
pub fn threaded_off()
    ensures { IsWorked threaded_off_row.script 10000 threaded_off_row.history }
{}

/// A Rest that itself notices a threaded DPC, by the lane of its queue: the processor has more to
/// do, and without those turns the history is unfinished.
pub fn rest_notices_a_lane()
    ensures replayed { IsReplayed rest_notices_a_lane_row.script 10000
        rest_notices_a_lane_row.schedule rest_notices_a_lane_row.history }
    ensures unfinished { IsUnfinished rest_notices_a_lane_row.script 10000
        rest_notices_a_lane_row.unfinished }
{}

/// An insert goes to the target set last, else stays; MediumHigh and High always ask another
/// processor, Low an idle one.
pub fn targets_and_importance()
    ensures { IsWorked targets_and_importance_row.script 10000 targets_and_importance_row.history }
{}

/// With a depth limit of 0 a first DPC of low importance asks; threaded DPCs that are switched off
/// run at DISPATCH_LEVEL.
pub fn threaded_off_depth_0()
    ensures { IsWorked threaded_off_depth_0_row.script 10000 threaded_off_depth_0_row.history }
{}

/// A target that is set after an insert leaves the object where it stands; of timers that are due
/// at one time the one set first expires first.
pub fn target_after_insert()
    ensures { IsWorked target_after_insert_row.script 10000 target_after_insert_row.history }
{}

/// An insert of low importance on an idle processor by itself asks for nothing.
pub fn own_idle_queue()
    ensures { IsWorked own_idle_queue_row.script 10000 own_idle_queue_row.history }
{}

/// An insert of medium importance asks a busy processor where its queue is deep.
pub fn deep_target()
    ensures { IsWorked deep_target_row.script 10000 deep_target_row.history }
{}

/// A processor that takes up a thread is idle no more, so an insert of low importance for it asks
/// for nothing.
pub fn busy_again()
    ensures { IsWorked busy_again_row.script 10000 busy_again_row.history }
{}

/// An object whose importance is set back to medium goes to the back of the queue, as does one of
/// medium-high importance.
pub fn medium_again()
    ensures { IsWorked medium_again_row.script 10000 medium_again_row.history }
{}

// ---- Waits, regions and APCs

/// Critical and guarded regions hold back kernel APCs.
pub fn regions()
    ensures { IsWorked regions_row.script 10000 regions_row.history }
{}

/// A kernel APC interrupts a wait, which is taken up again.
pub fn wait_and_kernel_apc()
    ensures { IsWorked wait_and_kernel_apc_row.script 10000 wait_and_kernel_apc_row.history }
{}

/// A user APC ends an alertable wait, and the others follow it.
pub fn user_apcs_alertable()
    ensures { IsWorked user_apcs_alertable_row.script 10000 user_apcs_alertable_row.history }
{}

/// A user APC does not end a plain wait, and both inserts are left waiting.
pub fn user_apcs_plain()
    ensures { IsWorked user_apcs_plain_row.script 10000 user_apcs_plain_row.history }
{}

/// An alert ends an alertable wait; a second one sets the flag.
pub fn alerts()
    ensures { IsWorked alerts_row.script 10000 alerts_row.history }
{}

/// A thread that ends has its kernel APCs delivered and its user APCs flushed.
pub fn rundown()
    ensures { IsWorked rundown_row.script 10000 rundown_row.history }
{}

/// A normal kernel APC waits for the one in progress.
pub fn normal_in_normal()
    ensures { IsWorked normal_in_normal_row.script 10000 normal_in_normal_row.history }
{}

/// A kernel APC for a thread that does not run, whose request was served meanwhile, is delivered
/// once the thread is taken up.
pub fn switch_asks_again()
    ensures { IsWorked switch_asks_again_row.script 10000 switch_asks_again_row.history }
{}

/// A release that ends no wait satisfies the next wait, and that one alone.
pub fn released_once()
    ensures { IsWorked released_once_row.script 10000 released_once_row.history }
{}

/// At a delay whose due time is reached already, a deliverable kernel APC is tested first.
pub fn kernel_apc_before_satisfied()
    ensures { IsMade kernel_apc_before_satisfied_row.script 10000
        kernel_apc_before_satisfied_row.schedule kernel_apc_before_satisfied_row.history }
{}

/// An APC of each kind is removed once while it waits, is not delivered then, and may be inserted
/// again.
pub fn removed_apcs()
    ensures { IsWorked removed_apcs_row.script 10000 removed_apcs_row.history }
{}

/// A user APC ends an alertable wait of user mode, and the one that came after it is delivered at
/// its end.
pub fn user_apc_ends_a_wait()
    ensures { IsWorked user_apc_ends_a_wait_row.script 10000 user_apc_ends_a_wait_row.history }
{}

/// A wait takes the alert of its own mode; with the user-pending mark set, user APCs end plain
/// waits and delays too.
pub fn alerts_of_both_modes()
    ensures { IsWorked alerts_of_both_modes_row.script 10000 alerts_of_both_modes_row.history }
{}

/// Several releases before a wait satisfy one wait, also where a kernel APC is delivered between.
pub fn wait_released_before()
    ensures { IsWorked wait_released_before_row.script 10000 wait_released_before_row.history }
{}

/// A release ends any wait and a kernel alert one of user mode; an APC held back and an alert of a
/// higher mode end none.
pub fn release_ends_a_wait()
    ensures { IsWorked release_ends_a_wait_row.script 10000 release_ends_a_wait_row.history }
{}

/// A thread that ends takes no more APCs, and a call on one that is gone answers no.
pub fn doors_and_gone()
    ensures { IsWorked doors_and_gone_row.script 10000 doors_and_gone_row.history }
{}

/// Only the last leave of a region asks for kernel APCs, and an APC gives up the region of its
/// kernel routine before its normal one.
pub fn regions_given_up()
    ensures { IsWorked regions_given_up_row.script 10000 regions_given_up_row.history }
{}

/// An alert of a thread that is gone answers no, though its flag was set.
pub fn alert_of_a_gone_thread()
    ensures { IsWorked alert_of_a_gone_thread_row.script 10000 alert_of_a_gone_thread_row.history }
{}

/// An alert of its mode ends a wait before a user APC does, and that before a kernel alert; the
/// user-pending mark ends no alertable wait.
pub fn order_of_tests()
    ensures { IsWorked order_of_tests_row.script 10000 order_of_tests_row.history }
{}

/// A delay leaves the released mark, and the beginning of a user APC clears the user-pending mark.
pub fn marks_cleared()
    ensures { IsWorked marks_cleared_row.script 10000 marks_cleared_row.history }
{}

/// A user APC is not delivered on the way to user mode where the user-pending mark is clear.
pub fn touser_without_the_mark()
    ensures { IsWorked touser_without_the_mark_row.script 10000
        touser_without_the_mark_row.history }
{}

/// A special kernel APC interrupts a normal routine, and a normal one waits for its end.
pub fn apcs_in_a_normal_routine()
    ensures { IsWorked apcs_in_a_normal_routine_row.script 10000
        apcs_in_a_normal_routine_row.history }
{}

/// A kernel routine leaves one of its regions and gives up the other at its end; the special APC
/// that it inserted comes right then.
pub fn region_left_by_a_kernel_routine()
    ensures { IsWorked region_left_by_a_kernel_routine_row.script 10000
        region_left_by_a_kernel_routine_row.history }
{}

/// A special kernel APC passes a normal one that was inserted before it and waits for the end of a
/// normal routine.
pub fn special_in_a_normal_routine()
    ensures { IsWorked special_in_a_normal_routine_row.script 10000
        special_in_a_normal_routine_row.history }
{}

/// A wait that is taken up after a kernel APC is interrupted by another one, and a release between
/// satisfies it the next time.
pub fn wait_interrupted_again()
    ensures { IsReplayed wait_interrupted_again_row.script 10000 wait_interrupted_again_row.schedule
        wait_interrupted_again_row.history }
{}

/// A kernel APC interrupts a wait before it blocks, though the thread was released; the wait is
/// satisfied when it is taken up.
pub fn wait_interrupted_at_its_call()
    ensures { IsReplayed wait_interrupted_at_its_call_row.script 10000
        wait_interrupted_at_its_call_row.schedule wait_interrupted_at_its_call_row.history }
{}

/// An alert of the thread by its own kernel APC ends the wait when it is taken up.
pub fn wait_taken_up_and_alerted()
    ensures { IsWorked wait_taken_up_and_alerted_row.script 10000
        wait_taken_up_and_alerted_row.history }
{}

/// A user APC that a kernel APC inserts ends the wait when it is taken up, and is flushed where no
/// `touser` follows.
pub fn wait_taken_up_for_a_user_apc()
    ensures { IsWorked wait_taken_up_for_a_user_apc_row.script 10000
        wait_taken_up_for_a_user_apc_row.history }
{}

// ---- Threads that yield

/// A yield gives the processor to the ready threads in turn, each at the level that it had.
pub fn yield_takes_turns()
    ensures { IsWorked yield_takes_turns_row.script 10000 yield_takes_turns_row.history }
{}

// ---- Timers and delays

/// Timers expire in order of due time; one is cancelled by a DPC.
pub fn timers_expire()
    ensures { IsWorked timers_expire_row.script 10000 timers_expire_row.history }
{}

/// A periodic timer that is late expires once and is set anew from then.
pub fn late_periodic_timer()
    ensures { IsWorked late_periodic_timer_row.script 10000 late_periodic_timer_row.history }
{}

/// A delay ends by the clock.
pub fn delay()
    ensures { IsWorked delay_row.script 10000 delay_row.history }
{}

/// A user APC ends an alertable delay, a kernel APC interrupts one until its old due time, and a
/// release ends none.
pub fn delay_of_user_mode()
    ensures { IsWorked delay_of_user_mode_row.script 10000 delay_of_user_mode_row.history }
{}

/// The expiry of a delay that was ended early ends no later wait, and a thread goes on at the level
/// at which it blocked.
pub fn stale_delay()
    ensures { IsWorked stale_delay_row.script 10000 stale_delay_row.history }
{}

/// The DPC of a periodic timer is inserted for an idle processor, which runs it; the DPC cancels
/// the timer, which was set anew.
pub fn fire_to_another_processor()
    ensures { IsWorked fire_to_another_processor_row.script 10000
        fire_to_another_processor_row.history }
{}

/// An alert ends a delay. The next alert sets its flag, and the expiry of that delay ends nothing.
pub fn alert_ends_a_delay()
    ensures { IsWorked alert_ends_a_delay_row.script 10000 alert_ends_a_delay_row.history }
{}

/// A delay ends in a guarded region, which the thread's end gives up; a rundown routine inserts its
/// own APC again in vain.
pub fn doors_closed_in_a_delay()
    ensures { IsWorked doors_closed_in_a_delay_row.script 10000
        doors_closed_in_a_delay_row.history }
{}

// ---- Limits and turns

/// A processor that made as many events as the turn limit makes no more.
pub fn cut_at_the_limit()
    ensures { IsWorked cut_at_the_limit_row.script 3 cut_at_the_limit_row.history }
{}

/// A turn is refused of a processor that there is not or that rests, as is a look of what no event
/// asked for and a switch to a thread that may not be taken.
pub fn refused_turns()
    ensures { refused_turns_row.AreRefused }
{}

/// A delay that is taken up again once its old due time is reached is over.
pub fn delay_over_at_rewait()
    ensures { IsWorked delay_over_at_rewait_row.script 10000 delay_over_at_rewait_row.history }
{}

/// An insert of an APC for a thread of another processor is noticed there by the lane of its
/// threads.
pub fn apc_tells_a_lane()
    ensures { IsMade apc_tells_a_lane_row.script 10000 apc_tells_a_lane_row.schedule
        apc_tells_a_lane_row.history }
{}

/// A removal notices what the lane of the queue tells where the object stood.
pub fn unqueue_tells_a_lane()
    ensures { IsMade unqueue_tells_a_lane_row.script 10000 unqueue_tells_a_lane_row.schedule
        unqueue_tells_a_lane_row.history }
{}

// ---- Spin locks

/// A thread spins on a lock that a thread of another processor holds, notices its release by a
/// look, and gets it.
pub fn spin_lock()
    ensures { IsWorked spin_lock_row.script 10000 spin_lock_row.history }
{}

/// Two threads that acquire two locks in different orders spin for good, and the history is
/// settled.
pub fn spin_deadlock()
    ensures { IsWorked spin_deadlock_row.script 10000 spin_deadlock_row.history }
{}

/// A thread is refused what a held lock forbids, and the lock is freed at the end of its routine.
pub fn spin_refusals()
    ensures { IsWorked spin_refusals_row.script 10000 spin_refusals_row.history }
{}

/// Two threads spin on a lock. One gets it after its release; the other tries, spins again, and
/// gets it after the next release.
pub fn lock_tried_again()
    ensures { IsWorked lock_tried_again_row.script 10000 lock_tried_again_row.history }
{}

/// A thread releases a lock and acquires it again before those that spin on it try again: each of
/// them spins again.
pub fn lock_taken_before_the_spinner()
    ensures { IsWorked lock_taken_before_the_spinner_row.script 10000
        lock_taken_before_the_spinner_row.history }
{}

/// An unlock goes back to the level of before the first try, though the last try was made at
/// DISPATCH_LEVEL.
pub fn lock_level_of_the_first_try()
    ensures { IsWorked lock_level_of_the_first_try_row.script 10000
        lock_level_of_the_first_try_row.history }
{}

/// The locks of a DPC and of a thread are freed at their ends, the one acquired last first.
pub fn locks_freed_at_the_end()
    ensures { IsWorked locks_freed_at_the_end_row.script 10000 locks_freed_at_the_end_row.history }
{}

/// Two threads and a DPC, each of which waits for a lock of the next, spin for good, and the
/// history is settled.
pub fn lock_cycle_of_three()
    ensures { IsWorked lock_cycle_of_three_row.script 10000 lock_cycle_of_three_row.history }
{}

/// An interrupt begins on a processor that spins. Its routine is refused the lock, and the thread
/// tries again after it.
pub fn interrupt_while_spinning()
    ensures { IsWorked interrupt_while_spinning_row.script 10000
        interrupt_while_spinning_row.history }
{}

/// Kernel APCs of a thread that holds a lock wait for its unlock, and acquire locks themselves.
pub fn apcs_wait_for_a_lock()
    ensures { IsWorked apcs_wait_for_a_lock_row.script 10000 apcs_wait_for_a_lock_row.history }
{}

/// A timer is due where each processor spins: it does not expire, and the history is settled.
pub fn timer_due_behind_spinners()
    ensures { IsWorked timer_due_behind_spinners_row.script 10000
        timer_due_behind_spinners_row.history }
{}

/// A processor is cut while it holds a lock: the one that spins on it spins for good, and the
/// history is settled.
pub fn cut_while_holding()
    ensures { IsWorked cut_while_holding_row.script 5 cut_while_holding_row.history }
{}

// ---- A driver in use

/// A driver in ordinary use: interrupt, DPC, completion APC, a timer that limits the request.
pub fn driver_in_use()
    ensures { IsWorked driver_in_use_row.script 10000 driver_in_use_row.history }
{}
