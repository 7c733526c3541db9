//! Columns of a line.
ghost use Rattle.nt_script.specs.Sound.{IsSound};

use crate::names::thread;
use crate::words::put_level;
use nt_event::{Level, ThreadNo};
use nt_history::Did;
use nt_script::Input;
use nt_text::put_digits;
use std::alloc::AllocError;

/// The widest name of a level, as DISPATCH or DIRQL 11.
const LEVEL: usize = 8;

/// What stands between two columns.
const GAP: &[u8] = b"  ";

/// How wide columns are.
#[derive(Clone, Copy)]
pub(crate) struct Widths {
    number: usize,
    cpu: usize,
    thread: usize,
}

/// How many digits a number has.
fn digits(number: u64) -> usize {
    let mut limit = 10u64;
    for count in 1..20 {
        if number < limit {
            return count;
        }
        limit = limit.saturating_mul(10);
    }
    20
}

/// How wide the widest name of a thread is, and at least 1.
fn widest_thread(input: &Input) -> usize
    requires { IsSound input.now }
{
    let mut widest = 1;
    let mut number = 0u16;
    for _ in input.script.threads.as_slice() {
        widest = widest.max(thread(input, ThreadNo(number)).len());
        number = number.saturating_add(1);
    }
    widest
}

impl Widths {
    /// The widths for so many events of a script.
    pub(crate) fn new(input: &Input, count: usize) -> Widths
        requires { IsSound input.now }
    {
        let last = count.saturating_sub(1) as u64;
        let last_cpu = u64::from(input.script.cpus.saturating_sub(1));
        Widths {
            number: digits(last),
            cpu: digits(last_cpu),
            thread: widest_thread(input),
        }
    }
}

/// Adds blanks in place of what a column lacks that has so many bytes, up to its width.
fn pad(out: &mut Vec<u8>, bytes: usize, width: usize) -> Result<(), AllocError> {
    for _ in bytes..width {
        out.push(b' ')?;
    }
    Ok(())
}

/// Adds the number of an event, at the right of its column.
pub(crate) fn put_number(
    out: &mut Vec<u8>,
    widths: &Widths,
    number: u64,
) -> Result<(), AllocError> {
    pad(out, digits(number), widths.number)?;
    put_digits(out, number)?;
    out.extend_from_slice(GAP)
}

/// Adds the column of a processor.
pub(crate) fn put_cpu(out: &mut Vec<u8>, widths: &Widths, cpu: u8) -> Result<(), AllocError> {
    let number = u64::from(cpu);
    out.push(b'p')?;
    put_digits(out, number)?;
    pad(out, digits(number), widths.cpu)?;
    out.extend_from_slice(GAP)
}

/// Adds the column of the running thread.
pub(crate) fn put_thread(
    out: &mut Vec<u8>,
    input: &Input,
    widths: &Widths,
    running: Option<ThreadNo>,
) -> Result<(), AllocError>
    requires { IsSound input.now }
{
    let name = match running {
        Some(running) => thread(input, running),
        None => "-",
    };
    out.extend_from_slice(name.as_bytes())?;
    pad(out, name.len(), widths.thread)?;
    out.extend_from_slice(GAP)
}

/// Adds the column of the level after an event. A look keeps no level.
pub(crate) fn put_level_column(
    out: &mut Vec<u8>,
    level: Level,
    did: &Did,
) -> Result<(), AllocError> {
    let start = out.len();
    match did {
        Did::Look { .. } => out.push(b'-')?,
        Did::Call { .. }
        | Did::Begin { .. }
        | Did::Normal { .. }
        | Did::End { .. }
        | Did::Expire { .. }
        | Did::Fire { .. }
        | Did::Clean { .. }
        | Did::Switch { .. }
        | Did::Rewait { .. }
        | Did::Flush { .. }
        | Did::Gone { .. }
        | Did::Free { .. }
        | Did::Rest => put_level(out, level)?,
    }
    pad(out, out.len().saturating_sub(start), LEVEL)?;
    out.extend_from_slice(GAP)
}
