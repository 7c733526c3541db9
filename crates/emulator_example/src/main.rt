//! An emulator that takes four parts of the machine by themselves: the frames of one processor, one
//! DPC queue, a timer and the state of one thread. Each line of the input is something that happens
//! in the guest. Behind it the parts' answers are written, and the processor's level afterwards:
//!
//! - `interrupt L`: a device interrupts at level L. Where its routine may not begin, an emulator
//!   keeps the interrupt pending.
//! - `end`: the innermost routine ends.
//! - `queue`: the guest calls KeInsertQueueDpc. An ask of class 2 is a dispatch interrupt.
//! - `dispatch`: the DPC's routine begins, where the level lets it.
//! - `set U`: the guest calls KeSetTimer, with the DPC, to be due in U units.
//! - `tick U`: U units go by, and timers that are due expire.
//! - `wait`, `release`, `resume`: the guest's thread waits, is released from its wait, and is taken
//!   up again.
//! - `apc A`: the guest calls KeInsertQueueApc, for the user APC of number A.
//! - `off`: the machine is switched off.
#![tactic(auto)]

mod guest;
mod lines;

use crate::guest::Guest;
use crate::lines::happen;
use std::io;

/// One line of the input: what happens in the guest, and what is written of it.
fn put_line(rt: &HostRuntime, guest: &mut Guest, entry: &str) -> io::Result<()> {
    let answer = happen(rt.alloc(), guest, entry)?;
    println!(rt; "{entry}: {answer}, level {}", guest.level().number())
}

/// All lines of the input.
fn put_lines(rt: &HostRuntime, guest: &mut Guest) -> io::Result<()> {
    for line in rt.lines(rt.alloc()) {
        let entry = line?;
        put_line(rt, guest, entry.as_str())?;
    }
    Ok(())
}

fn main(rt: HostRuntime) -> io::Result<()> {
    let mut guest = Guest::new(rt.alloc())?;
    put_lines(&rt, &mut guest)
}
