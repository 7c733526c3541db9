//! The classes of requests: what a processor may be asked to do.
//!
//! The first three are software interrupts, 12 is the release of a spin lock and no interrupt, the
//! others are the levels of hardware interrupts (Windows Internals, "Interrupt request levels"; the
//! numbers of the first three and of 12: profile).
ghost use Rattle.std.specs.Prelude.{◌≡◌};
ghost use Rattle.nt_event.specs.Classes.{is_used_class};

use crate::CpuNo;

/// A class of a processor for which an event asks.
#[derive(Clone, Copy, PartialEq, Eq, Debug)]
pub struct Asked {
    pub cpu: CpuNo,
    pub class: u8,
}

/// Threaded DPCs, at PASSIVE_LEVEL.
pub const THREADED: u8 = 0;

/// Kernel APCs, at APC_LEVEL.
pub const APC: u8 = 1;

/// DPCs, timers and ready threads, at DISPATCH_LEVEL.
pub const DISPATCH: u8 = 2;

/// The release of a spin lock, which is no interrupt.
pub const LOCK: u8 = 12;

/// The clock interrupt, at CLOCK_LEVEL.
pub const CLOCK: u8 = 13;

/// Interrupts among processors, at IPI_LEVEL.
pub const IPI: u8 = 14;

/// Classes are counted from 0 to below this.
pub const COUNT: usize = 16;

/// Whether the class is used: 0 to 14.
pub fn is_used(class: u8) -> bool
    ensures { result ≡ is_used_class class }
{
    class <= 11 || class == LOCK || class == CLOCK || class == IPI
}
