//! Limits of scripts, runs and histories.

/// Processors of a script at most.
pub const CPUS: u8 = 64;

/// Threads of a script at most.
pub const THREADS: usize = 64;

/// Timers of a script at most.
pub const TIMERS: usize = 64;

/// DPC objects of a script at most.
pub const DPCS: usize = 256;

/// APC objects of a script at most.
pub const APCS: usize = 256;

/// Spin locks of a script at most.
pub const LOCKS: u16 = 64;

/// Routines of a script at most.
pub const ROUTINES: usize = 256;

/// Commands of all routines of a script at most.
pub const COMMANDS: usize = 8_192;

/// The depth limit of the DPC queues at most.
pub const DEPTH: u32 = 256;

/// The depth limit of the DPC queues where the script sets none.
pub const USUAL_DEPTH: u32 = 4;

/// Turns of a processor at most: the greatest turn limit of a run.
pub const TURNS: u32 = 20_000;

/// The turn limit of a run where none is given.
pub const USUAL_TURNS: u32 = 10_000;

/// Events of a history at most.
pub const EVENTS: u32 = 160_000;
