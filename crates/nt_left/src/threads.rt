//! Threads that are blocked or ready.
ghost use Rattle.std.specs.Prelude.{◌≡◌, reverse};
ghost use Rattle.nt_left.specs.Items.{due_in, thread_item};

use crate::kinds::Left;
use nt_event::{Doing, ThreadNo};
use nt_frame::Frame;

/// When the delay is due in which the thread of these frames is blocked.
fn due_in(frames: &[Frame]) -> Option<u64>
    ensures { result ≡ due_in (reverse frames.now) }
{
    let again = frames.last()?.again()?;
    again.due
}

/// What a thread leaves that does so and has these frames.
pub(crate) fn thread_left(thread: ThreadNo, doing: &Doing, frames: &[Frame]) -> Option<Left>
    ensures { result ≡ thread_item thread doing.now (reverse frames.now) }
{
    match doing {
        Doing::Blocked(wait) => Some(Left::Blocked {
            thread,
            wait: *wait,
            due: due_in(frames),
        }),
        Doing::Ready { .. } => Some(Left::Ready {
            thread,
            begun: !frames.is_empty(),
        }),
        Doing::Running | Doing::Gone => None,
    }
}
