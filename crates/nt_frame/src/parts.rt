//! The parts of the threads.
ghost use Rattle.std.specs.Prelude.{◌≡◌, ◌<◌, [], ◌∷◌, length, set, vec_len};
ghost use Rattle.std.specs.Option.{ForSome};
ghost use Rattle.nt_event.specs.Frames.{at_head, frames_in, new_frame};
ghost use Rattle.nt_event.specs.Lists.{head_of, tail_of};
ghost use Rattle.nt_frame.specs.Changes.{MayChange, changed};

use crate::change::Change;
use crate::part::Part;
use nt_event::{Body, ThreadNo};

/// Begins a frame on the thread's part.
#[inline(always)]
pub fn begin(threads: &mut Vec<Part<4>>, t: ThreadNo, name: u64, body: Body)
    requires thread { t.0 < vec_len threads.old }
    requires room { length (frames_in threads.old.items t) < 4 }
    ensures { threads.new.items
        ≡ set threads.old.items t.0 (new_frame name body ∷ frames_in threads.old.items t) }
{
    threads[t.0 as usize].begin(name, body);
}

/// Takes the newest frame from the thread's part.
pub fn pop(threads: &mut Vec<Part<4>>, t: ThreadNo)
    requires { t.0 < vec_len threads.old }
    ensures { threads.new.items
        ≡ set threads.old.items t.0 (tail_of (frames_in threads.old.items t)) }
{
    threads[t.0 as usize].pop();
}

/// Leaves no frame on the thread's part.
pub fn clear(threads: &mut Vec<Part<4>>, t: ThreadNo)
    requires { t.0 < vec_len threads.old }
    ensures { threads.new.items ≡ set threads.old.items t.0 [] }
{
    threads[t.0 as usize].clear();
}

/// Makes the change of the newest frame of the thread's part.
#[inline(always)]
pub fn change(threads: &mut Vec<Part<4>>, t: ThreadNo, change: &Change)
    requires thread { t.0 < vec_len threads.old }
    requires room { ForSome (head_of (frames_in threads.old.items t)) (MayChange change.now) }
    ensures { threads.new.items
        ≡ set threads.old.items t.0 (at_head (changed change.now) (frames_in threads.old.items t)) }
{
    threads[t.0 as usize].change(change);
}
