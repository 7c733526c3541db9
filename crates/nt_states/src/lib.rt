//! What the states of lanes answer before an event, and the event that they give.
//!
//! [`LaneAnswers`] is the interface of the small questions: is the object queued and where does an
//! insert go, what is first in a part of a queue, what does a wait answer, which APC is due, is the
//! timer set, is the lock free. The states of all lanes of a script answer them, and so do a few
//! lanes that are held by their locks; both hand out the states of threads, which answer the
//! questions of [`ThreadAnswers`] themselves. Over it stand what every floor needs before it makes
//! an event: [`decide`] finds the event of a job, [`decide_into`] writes it where the caller keeps
//! it, [`event_lanes`] finds the lanes that it touches, [`event`] and [`due`] make it,
//! [`event_asks`] tells what it asks for.
//!
//! A value tells states of all lanes, and holds some of them: a question may be asked only of a
//! lane that is held. What a value tells of a lane that it doesn't hold is nobody's state; no
//! function here reads it. The lanes to be held are lists of small definitions
//! (`specs/Reads.antt`), since they are not the same before and after the event is known. A job is
//! decided by reading its queue, its threads or the timers first (`job_lanes`); which lanes the
//! event touches may hang on its DPC object alone (`found_lanes`); and its asks, its level and its
//! due time are read on the lanes that it touches (`what_lanes` of nt_event). So a floor over locks
//! takes the lanes of the job, decides, takes those that are touched, decides anew under them, and
//! makes the event there.
//!
//! What a floor does once the event is made stands here too: [`tell_own`] is what its own requests
//! tell, [`leave_timers`] what it leaves of the timers, and [`SpinLock`] keeps the state of a spin
//! lock. So do the definitions by which each part of the lanes says what an event leaves and when
//! it may be made: of objects and queues `specs/DpcLanes.antt`, of threads `specs/ThreadLanes.antt`
//! and `specs/ThreadFits.antt`, of timers `specs/Timed.antt`, and of all together
//! `specs/AllStates.antt` and `specs/Allowed.antt`.
#![tactic(auto)]

mod answers;
mod asking;
mod deciding;
mod locks;
mod making;
mod replying;
mod running;
mod telling;
mod thread_answers;
mod timing;
mod touching;

pub use answers::LaneAnswers;
pub use asking::{Asks, event_asks};
pub use deciding::{decide, decide_into};
pub use locks::{Move, SpinLock, moved_lock};
pub use making::{complete, due, event};
pub use telling::tell_own;
pub use thread_answers::ThreadAnswers;
pub use timing::leave_timers;
pub use touching::{Touched, event_lanes};
