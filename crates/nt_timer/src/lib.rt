//! Timers and the delays of threads.
//!
//! A [`TimerQueue`] has the time, which counts units from 0, and for each timer and each thread's
//! delay that is set, when it is due. [`TimerQueue::first_due`] tells which key expires next: among
//! those whose due time is reached, the least by due time, then by the number of the event that set
//! it. [`TimerQueue::expire`] takes it; a periodic timer is set anew from the time of its expiry,
//! and the expiry counts as the event that set it.
//!
//! Contracts see a [`TimerQueue`] as the very record of the machine's definitions: the time and two
//! tables, which have for each timer and for each thread its setting, if it is set.
//!
//! Sources: Windows Internals, "Timer processing"; the driver documentation, "KeSetTimerEx",
//! "KeCancelTimer", "KeReadStateTimer", "KeDelayExecutionThread".
#![tactic(auto)]

mod due;
mod laws;
mod queue;
mod rings;
mod slots;
mod wheel;

pub use laws::{first_due_is_first, numbers_tell_keys, timer_calls_are_events};
pub use queue::{Expired, SetAnswer, TimerQueue};
pub use slots::Slot;
