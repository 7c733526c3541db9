//! The whole report for people.
ghost use Rattle.nt_script.specs.Sound.{IsSound};

use crate::columns::{Widths, put_cpu, put_level_column, put_number, put_thread};
use crate::endings::put_endings;
use crate::events::put_event;
use nt_history::{Brief, Briefs, History};
use nt_script::Input;
use std::alloc::{AllocError, Global};

/// Adds the columns before what an event did.
fn put_columns(
    out: &mut Vec<u8>,
    input: &Input,
    widths: &Widths,
    event: &Brief,
) -> Result<(), AllocError>
    requires { IsSound input.now }
{
    put_cpu(out, widths, event.cpu.0)?;
    put_thread(out, input, widths, event.thread)?;
    put_level_column(out, event.level, &event.did)
}

/// Adds a line for each event.
fn put_events(out: &mut Vec<u8>, input: &Input, events: &Briefs) -> Result<(), AllocError>
    requires { IsSound input.now }
{
    let widths = Widths::new(input, events.briefs.len());
    for (number, event) in events.briefs.iter().enumerate() {
        put_number(out, &widths, number as u64)?;
        put_columns(out, input, &widths, event)?;
        put_event(out, input, events, event)?;
        out.push(b'\n')?;
    }
    Ok(())
}

/// The report of a history of the input's script for people. An error is want of memory.
///
/// A line for each event has its number, its processor, the thread that ran there before it (for a
/// switch the one that is taken up), the level after it, and in words what it did. Behind them
/// comes a line for each processor that is cut, for each other one that still spins on a lock, and
/// for each insert that still waits. A number in the history that names nothing of the script is
/// shown as `?`. Profile.
pub fn view(alloc: Global, input: &Input, history: &History) -> Result<Vec<u8>, AllocError>
    requires { IsSound input.now }
{
    let mut out = Vec::new(alloc);
    put_events(&mut out, input, &history.lend())?;
    put_endings(&mut out, input, history)?;
    Ok(out)
}
