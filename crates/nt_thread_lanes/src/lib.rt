//! The threads of a script.
//!
//! [`Threads`] holds the state of each thread of a script, and answers the questions of
//! [`nt_states::ThreadAnswers`] by the thread's or the APC object's number: which threads are
//! ready, which one is next, what a wait would answer, which APC is due. [`Threads::leave`] takes
//! in an event of a processor, and changes the state of the thread that makes it, or that it names.
//! No call but [`Threads::new`] and [`Threads::copy`] takes memory.
//!
//! Contracts see the script and the list of the threads' facts in the definitions of the machine
//! (`nt_event`, `Threads` and `Waits`). Each call answers what they say of it, and `leave` leaves
//! for each thread what they say that the event leaves. These facts hold whenever a value can be
//! used (`IsSound`): the script fits, there is a state for each of its threads, and each pending
//! APC of a thread is of an object of the script, of its kind and its thread.
//!
//! Sources: Windows Internals, "Asynchronous procedure calls", "Dispatcher objects" and "Thread
//! scheduling"; the driver documentation, "Waits and APCs". Profile: the ready thread of least
//! number above the one that was taken last is next.
#![tactic(auto)]

mod answering;
mod leaving;
mod making;
mod marks;
mod telling;
mod threads;

pub use telling::named_thread;
pub use threads::Threads;
