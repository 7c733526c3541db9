//! What a call changes of the innermost frame.
use nt_event::{Again, LockNo, Region};
use nt_level::Level;

/// A change of one frame.
#[derive(Clone, Copy, PartialEq, Eq, Debug)]
pub enum Change {
    SetLevel(Level),
    /// Sets the wait that it has to take up again.
    SetAgain(Option<Again>),
    /// It has called one more command, and spins on no lock.
    AdvancePlace,
    /// Sets how often it has entered a region of the kind and not left it.
    SetEntered(Region, u32),
    /// An APC goes on to its normal routine.
    GoOn,
    /// A base routine ends.
    EndBase,
    /// It gets the lock.
    Acquire(LockNo),
    /// It spins on the lock.
    SpinOn(LockNo),
    /// It frees the lock that it acquired last.
    Free,
}
