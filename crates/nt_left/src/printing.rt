//! The lines of what is left.
ghost use Rattle.std.specs.Prelude.{◌≡◌, ◌++◌, IfOk, OnOk};
ghost use Rattle.std.specs.List.{flat_map};
ghost use Rattle.nt_left.specs.declared.kinds.Left.TheVariants as left;
ghost use Rattle.nt_left.specs.Lines.{apc_text, due_fields, innermost_fields, left_text};
ghost use Rattle.nt_left.specs.Lines.{period_fields, ready_word, region_word, stopped_text};
ghost use Rattle.nt_left.specs.Lines.{thing_line, thing_text, wait_fields, wait_word};
ghost use Rattle.nt_script.specs.Sound.{IsSound};

use crate::kinds::{ApcCause, CpuCause, Left};
use crate::naming::{
    put_apc, put_counted, put_cpu, put_dpc, put_frame, put_lock, put_owner, put_thread, put_timer,
};
use nt_event::{ApcNo, CpuNo, DpcNo, Level, LockNo, Region, Setting, ThreadNo, TimerNo, Waiting};
use nt_line::fields::{alertable_text, mode_text};
use nt_script::Input;
use nt_text::{put_field, put_number};
use std::alloc::{AllocError, Global};

/// Adds the innermost frame of a processor, if there is one.
fn put_innermost(out: &mut Vec<u8>, frame: Option<u64>) -> Result<(), AllocError>
    ensures { OnOk result (out.new.items ≡ out.old.items ++ innermost_fields frame) }
{
    match frame {
        Some(frame) => put_counted(out, b"frame", frame),
        None => Ok(()),
    }
}

fn put_cut(
    out: &mut Vec<u8>,
    input: &Input,
    cpu: CpuNo,
    thread: Option<ThreadNo>,
    level: Level,
    frame: Option<u64>,
) -> Result<(), AllocError>
    requires { IsSound input.now }
    ensures { OnOk result (out.new.items
        ≡ out.old.items ++ thing_text input.now (left.Cut cpu thread level frame)) }
{
    out.extend_from_slice(b"cut")?;
    put_cpu(out, cpu)?;
    put_owner(out, input, thread)?;
    put_innermost(out, frame)?;
    put_counted(out, b"level", u64::from(level.number()))
}

fn put_spins(out: &mut Vec<u8>, input: &Input, cpu: CpuNo, lock: LockNo) -> Result<(), AllocError>
    requires { IsSound input.now }
    ensures { OnOk result (out.new.items
        ≡ out.old.items ++ thing_text input.now (left.Spins cpu lock)) }
{
    out.extend_from_slice(b"spins")?;
    put_cpu(out, cpu)?;
    put_lock(out, input, lock)
}

/// Whether it is a delay or another wait, in a word.
fn wait_word(delay: bool) -> &'static [u8]
    ensures { result.now ≡ wait_word delay }
{
    if delay { b"delay" } else { b"wait" }
}

/// Adds which wait it is.
fn put_wait(out: &mut Vec<u8>, wait: &Waiting) -> Result<(), AllocError>
    ensures { OnOk result (out.new.items ≡ out.old.items ++ wait_fields wait.now) }
{
    put_field(out, wait_word(wait.delay))?;
    put_field(out, mode_text(wait.mode))?;
    put_field(out, alertable_text(wait.alertable))
}

/// Adds when it is due, if it is a delay.
fn put_due(out: &mut Vec<u8>, due: Option<u64>) -> Result<(), AllocError>
    ensures { OnOk result (out.new.items ≡ out.old.items ++ due_fields due) }
{
    match due {
        Some(due) => put_counted(out, b"due", due),
        None => Ok(()),
    }
}

fn put_blocked(
    out: &mut Vec<u8>,
    input: &Input,
    thread: ThreadNo,
    wait: &Waiting,
    due: Option<u64>,
) -> Result<(), AllocError>
    requires { IsSound input.now }
    ensures { OnOk result (out.new.items
        ≡ out.old.items ++ thing_text input.now (left.Blocked thread wait.now due)) }
{
    out.extend_from_slice(b"blocked")?;
    put_thread(out, input, thread)?;
    put_wait(out, wait)?;
    put_due(out, due)?;
    put_counted(out, b"of", wait.event)
}

/// Whether the thread was ever taken up, in a word.
fn ready_word(begun: bool) -> &'static [u8]
    ensures { result.now ≡ ready_word begun }
{
    if begun { b"ready" } else { b"unstarted" }
}

fn put_ready(
    out: &mut Vec<u8>,
    input: &Input,
    thread: ThreadNo,
    begun: bool,
) -> Result<(), AllocError>
    requires { IsSound input.now }
    ensures { OnOk result (out.new.items
        ≡ out.old.items ++ thing_text input.now (left.Ready thread begun)) }
{
    out.extend_from_slice(ready_word(begun))?;
    put_thread(out, input, thread)
}

/// Adds the period of a timer that has one.
fn put_period(out: &mut Vec<u8>, period: u32) -> Result<(), AllocError>
    ensures { OnOk result (out.new.items ≡ out.old.items ++ period_fields period) }
{
    if period == 0 {
        return Ok(());
    }
    put_counted(out, b"period", u64::from(period))
}

fn put_set(
    out: &mut Vec<u8>,
    input: &Input,
    timer: TimerNo,
    setting: &Setting,
) -> Result<(), AllocError>
    requires { IsSound input.now }
    ensures { OnOk result (out.new.items
        ≡ out.old.items ++ thing_text input.now (left.Timer timer setting.now)) }
{
    out.extend_from_slice(b"set")?;
    put_timer(out, input, timer)?;
    put_counted(out, b"due", setting.due)?;
    put_period(out, setting.period)?;
    put_counted(out, b"of", setting.number)
}

/// A region, in a word.
fn region_word(region: Region) -> &'static [u8]
    ensures { result.now ≡ region_word region }
{
    match region {
        Region::Crit => b"critical",
        Region::Guard => b"guarded",
    }
}

/// What a processor is that does nothing more.
fn stopped_text(cause: CpuCause) -> &'static [u8]
    ensures { result.now ≡ stopped_text cause }
{
    match cause {
        CpuCause::Cut => b" is cut",
        CpuCause::Spins => b" spins",
    }
}

fn put_pending_dpc(
    out: &mut Vec<u8>,
    input: &Input,
    dpc: DpcNo,
    number: u64,
    queue: CpuNo,
    cause: CpuCause,
) -> Result<(), AllocError>
    requires { IsSound input.now }
    ensures { OnOk result (out.new.items
        ≡ out.old.items ++ thing_text input.now (left.Dpc dpc number queue cause)) }
{
    out.extend_from_slice(b"waits")?;
    put_number(out, number)?;
    out.extend_from_slice(b" dpc")?;
    put_dpc(out, input, dpc)?;
    out.extend_from_slice(b" as")?;
    put_cpu(out, queue)?;
    out.extend_from_slice(stopped_text(cause))
}

/// What holds back an APC.
fn apc_text(cause: ApcCause) -> &'static [u8]
    ensures { result.now ≡ apc_text cause }
{
    match cause {
        ApcCause::Gone => b" is gone",
        ApcCause::Stopped(CpuCause::Cut) => b" is of a cut processor",
        ApcCause::Stopped(CpuCause::Spins) => b" is of a spinning processor",
        ApcCause::Wait => b" is in a wait that takes no user APC",
        ApcCause::Level => b" is blocked above level 0",
        ApcCause::Guarded => b" is blocked in a guarded region",
        ApcCause::Critical => b" is blocked in a critical region",
        ApcCause::InProgress => b" is blocked in a normal kernel APC",
    }
}

fn put_pending_apc(
    out: &mut Vec<u8>,
    input: &Input,
    apc: ApcNo,
    number: u64,
    thread: ThreadNo,
    cause: ApcCause,
) -> Result<(), AllocError>
    requires { IsSound input.now }
    ensures { OnOk result (out.new.items
        ≡ out.old.items ++ thing_text input.now (left.Apc apc number thread cause)) }
{
    out.extend_from_slice(b"waits")?;
    put_number(out, number)?;
    out.extend_from_slice(b" apc")?;
    put_apc(out, input, apc)?;
    out.extend_from_slice(b" as")?;
    put_thread(out, input, thread)?;
    out.extend_from_slice(apc_text(cause))
}

/// Adds the fields of a thing that is left, without the end of the line.
fn put_thing(out: &mut Vec<u8>, input: &Input, thing: &Left) -> Result<(), AllocError>
    requires { IsSound input.now }
    ensures { OnOk result (out.new.items ≡ out.old.items ++ thing_text input.now thing.now) }
{
    match *thing {
        Left::Cut {
            cpu,
            thread,
            level,
            frame,
        } => put_cut(out, input, cpu, thread, level, frame),
        Left::Spins { cpu, lock } => put_spins(out, input, cpu, lock),
        Left::Blocked { thread, wait, due } => put_blocked(out, input, thread, &wait, due),
        Left::Ready { thread, begun } => put_ready(out, input, thread, begun),
        Left::Timer { timer, setting } => put_set(out, input, timer, &setting),
        Left::Raised {
            cpu,
            owner,
            frame,
            level,
            base,
        } => {
            out.extend_from_slice(b"raised")?;
            put_frame(out, input, cpu, owner, frame)?;
            put_counted(out, b"level", u64::from(level.number()))?;
            put_counted(out, b"above", u64::from(base.number()))
        }
        Left::Inside {
            cpu,
            owner,
            frame,
            region,
            count,
        } => {
            out.extend_from_slice(b"inside")?;
            put_frame(out, input, cpu, owner, frame)?;
            put_counted(out, region_word(region), u64::from(count))
        }
        Left::Holds {
            cpu,
            owner,
            frame,
            lock,
        } => {
            out.extend_from_slice(b"holds")?;
            put_frame(out, input, cpu, owner, frame)?;
            put_lock(out, input, lock)
        }
        Left::Dpc {
            dpc,
            number,
            queue,
            cause,
        } => put_pending_dpc(out, input, dpc, number, queue, cause),
        Left::Apc {
            apc,
            number,
            thread,
            cause,
        } => put_pending_apc(out, input, apc, number, thread, cause),
    }
}

/// Adds the line of a thing.
fn put_line(out: &mut Vec<u8>, input: &Input, thing: &Left) -> Result<(), AllocError>
    requires { IsSound input.now }
    ensures { OnOk result (out.new.items ≡ out.old.items ++ thing_line input.now thing.now) }
{
    put_thing(out, input, thing)?;
    out.push(b'\n')?;
    Ok(())
}

/// Adds a line for each thing.
fn put_lines(out: &mut Vec<u8>, input: &Input, left: &[Left]) -> Result<(), AllocError>
    requires { IsSound input.now }
    ensures { OnOk result (out.new.items
        ≡ out.old.items ++ flat_map (thing_line input.now) left.now) }
{
    for thing in left {
        put_line(out, input, thing)?;
    }
    Ok(())
}

/// Adds the lines of all things, or that there is none.
fn put_all(out: &mut Vec<u8>, input: &Input, left: &[Left]) -> Result<(), AllocError>
    requires { IsSound input.now }
    ensures { OnOk result (out.new.items ≡ out.old.items ++ left_text input.now left.now) }
{
    if left.is_empty() {
        return out.extend_from_slice(b"nothing is left\n");
    }
    put_lines(out, input, left)
}

/// A line for each thing that is left; `nothing is left` where there is none. An error is want of
/// memory.
///
/// A thing that the script of the input lacks is told by its number.
pub fn print_left(alloc: Global, input: &Input, left: &[Left]) -> Result<Vec<u8>, AllocError>
    requires { IsSound input.now }
    ensures { IfOk result (λ text. text.items ≡ left_text input.now left.now) }
{
    let mut out = Vec::new(alloc);
    put_all(&mut out, input, left)?;
    Ok(out)
}
