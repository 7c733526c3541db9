//! Laws for readers, on which no other crate stands: what is refused, the events of a history as
//! calls of the parts, a thread's facts by positions in the history, one processor's own steps, and
//! the lists of the lanes. Each function's contract is a law; the functions do nothing.
//!
//! The definitions stand in nt_event; a run is a history each of whose events is the one that its
//! turn gives.
#![tactic(auto)]

ghost use Rattle.nt_reader_laws.specs.Again.{WaitsAreTakenUpWhereInterrupted};
ghost use Rattle.nt_reader_laws.specs.Apcs.{ApcEventsAreCalls};
ghost use Rattle.nt_reader_laws.specs.Commands.{RefusedCommandsTakeTheirPlace};
ghost use Rattle.nt_reader_laws.specs.Flags.{FlagsAreSetAndKept};
ghost use Rattle.nt_reader_laws.specs.Frames.{FramesAreCalls};
ghost use Rattle.nt_live.specs.LanePieces.{LanesHavePieces, ListsArePieces};
ghost use Rattle.nt_reader_laws.specs.Replays.{ReplaysAreRefused};
ghost use Rattle.nt_reader_laws.specs.Steps.{AdvancesAreSteps, LaneStepsAreSteps};
ghost use Rattle.nt_reader_laws.specs.Steps.{LocalStepsAreSteps};
ghost use Rattle.nt_reader_laws.specs.Threads.{ThreadEventsAreCalls, ThreadHistoriesAreCalls};
ghost use Rattle.nt_reader_laws.specs.Waits.{SwitchesCarryTheStatus, WaitsAreRead};

/// A refused command changes nothing but the place in the routine: in a run it is called by the
/// innermost frame of its processor, which is then at its next place; the rest of what its
/// processor keeps, what the others keep, the lanes and the requests stay. It touches no lane and
/// asks nobody.
pub fn a_refused_command_takes_its_place_alone()
    ensures { RefusedCommandsTakeTheirPlace }
{}

/// A list of turns is refused at a place exactly where the turns before it make a run and the turn
/// there is refused so by the step; or, at the number of the turns, where all of them make a run
/// that isn't settled.
pub fn a_replay_is_refused_at_its_first_refused_turn()
    ensures { ReplaysAreRefused }
{}

/// In a run whose turn limit is a number of 32 bits, each event of a processor is one that it may
/// make where its frames are those of the history before, and its frames are what the calls for its
/// events leave, beginning with none.
pub fn frames_are_calls()
    ensures { FramesAreCalls }
{}

/// What each event leaves of a thread's APC queues is what its calls leave; so after every history
/// they are what all its calls leave, on new queues, and each insert has a number above those
/// before it.
pub fn apc_events_are_calls()
    ensures { ApcEventsAreCalls }
{}

/// In a run what each event leaves of the facts of a thread of the script is what its calls leave.
pub fn thread_events_are_calls()
    ensures { ThreadEventsAreCalls }
{}

/// In a run the facts of a thread of the script are what all calls of the history leave, on the
/// state of a new thread.
pub fn thread_histories_are_calls()
    ensures { ThreadHistoriesAreCalls }
{}

/// The released mark, the alerted flags, the user-pending mark and that a thread is leaving are
/// each set exactly where an event set it and no later event cleared it.
pub fn flags_are_set_and_kept()
    ensures { FlagsAreSetAndKept }
{}

/// In a run a thread waits exactly where an event blocked it and no later event ended the wait; it
/// has the status of an ended wait exactly where a wait of it was ended with that status and the
/// thread was not taken up since; and it is gone exactly where it had its Gone.
pub fn waits_are_read()
    ensures { WaitsAreRead }
{}

/// In a run a Switch carries a status exactly where a wait of its thread was ended with that status
/// and the thread was not taken up since.
pub fn switches_carry_the_status()
    ensures { SwitchesCarryTheStatus }
{}

/// In a run a frame of a thread that runs has a wait to take up exactly where the last wait event
/// of the frame's present phase had the outcome STATUS_KERNEL_APC: it answered so, or it blocked
/// and the thread was taken up with that status.
pub fn waits_are_taken_up_where_interrupted()
    ensures { WaitsAreTakenUpWhereInterrupted }
{}

/// The event that `Cpu::step_local` makes is the one that its turn gives after the run that the
/// processor and its floor follow, and each value of a Look was asked for.
pub fn local_steps_are_steps()
    ensures { LocalStepsAreSteps }
{}

/// The event that `Cpu::step_lane` makes of the job that the processor chose is the one that its
/// turn gives.
pub fn lane_steps_are_steps()
    ensures { LaneStepsAreSteps }
{}

/// The event that `Cpu::advance` makes is the one that its turn gives, and each value of a Look was
/// asked for.
pub fn advances_are_steps()
    ensures { AdvancesAreSteps }
{}

/// In the history that closed passes and lanes show, the list of each lane's keeper is the piece of
/// its lane. So are, with the events that stand at them, the numbers that closing the lanes gives
/// beside these keepers.
pub fn lanes_have_their_pieces()
    ensures numbers { LanesHavePieces }
    ensures entries { ListsArePieces }
{}
