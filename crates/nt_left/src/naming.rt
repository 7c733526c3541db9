//! Fields of a line: processors, names, frames. A thing that the script lacks has its number.
ghost use Rattle.std.specs.Prelude.{◌≡◌, ◌++◌, OnOk};
ghost use Rattle.nt_left.specs.Lines.{apc_field, counted, cpu_field, dpc_field, frame_fields};
ghost use Rattle.nt_left.specs.Lines.{lock_field, owner_field, thread_field, timer_field};
ghost use Rattle.nt_script.specs.Sound.{IsSound};

use nt_event::{ApcNo, CpuNo, DpcNo, LockNo, ThreadNo, TimerNo};
use nt_script::Input;
use nt_text::{put_digits, put_field, put_number};
use std::alloc::AllocError;

/// Adds `p` and the processor's number.
pub(crate) fn put_cpu(out: &mut Vec<u8>, cpu: CpuNo) -> Result<(), AllocError>
    ensures { OnOk result (out.new.items ≡ out.old.items ++ cpu_field cpu) }
{
    out.extend_from_slice(b" p")?;
    put_digits(out, u64::from(cpu.0))
}

pub(crate) fn put_thread(
    out: &mut Vec<u8>,
    input: &Input,
    thread: ThreadNo,
) -> Result<(), AllocError>
    requires { IsSound input.now }
    ensures { OnOk result (out.new.items ≡ out.old.items ++ thread_field input.now thread) }
{
    if usize::from(thread.0) < input.script.threads.len() {
        put_field(out, input.names.thread(thread).as_bytes())
    } else {
        put_number(out, u64::from(thread.0))
    }
}

pub(crate) fn put_timer(out: &mut Vec<u8>, input: &Input, timer: TimerNo) -> Result<(), AllocError>
    requires { IsSound input.now }
    ensures { OnOk result (out.new.items ≡ out.old.items ++ timer_field input.now timer) }
{
    if usize::from(timer.0) < input.script.timers.len() {
        put_field(out, input.names.timer(timer).as_bytes())
    } else {
        put_number(out, u64::from(timer.0))
    }
}

pub(crate) fn put_dpc(out: &mut Vec<u8>, input: &Input, dpc: DpcNo) -> Result<(), AllocError>
    requires { IsSound input.now }
    ensures { OnOk result (out.new.items ≡ out.old.items ++ dpc_field input.now dpc) }
{
    if usize::from(dpc.0) < input.script.dpcs.len() {
        put_field(out, input.names.dpc(dpc).as_bytes())
    } else {
        put_number(out, u64::from(dpc.0))
    }
}

pub(crate) fn put_apc(out: &mut Vec<u8>, input: &Input, apc: ApcNo) -> Result<(), AllocError>
    requires { IsSound input.now }
    ensures { OnOk result (out.new.items ≡ out.old.items ++ apc_field input.now apc) }
{
    if usize::from(apc.0) < input.script.apcs.len() {
        put_field(out, input.names.apc(apc).as_bytes())
    } else {
        put_number(out, u64::from(apc.0))
    }
}

pub(crate) fn put_lock(out: &mut Vec<u8>, input: &Input, lock: LockNo) -> Result<(), AllocError>
    requires { IsSound input.now }
    ensures { OnOk result (out.new.items ≡ out.old.items ++ lock_field input.now lock) }
{
    if lock.0 < input.script.locks {
        put_field(out, input.names.lock(lock).as_bytes())
    } else {
        put_number(out, u64::from(lock.0))
    }
}

/// Adds a word and a number.
pub(crate) fn put_counted(out: &mut Vec<u8>, word: &[u8], number: u64) -> Result<(), AllocError>
    ensures { OnOk result (out.new.items ≡ out.old.items ++ counted word.now number) }
{
    put_field(out, word)?;
    put_number(out, number)
}

/// Adds the thread on whose part a frame stands, if any.
pub(crate) fn put_owner(
    out: &mut Vec<u8>,
    input: &Input,
    owner: Option<ThreadNo>,
) -> Result<(), AllocError>
    requires { IsSound input.now }
    ensures { OnOk result (out.new.items ≡ out.old.items ++ owner_field input.now owner) }
{
    match owner {
        Some(thread) => put_thread(out, input, thread),
        None => Ok(()),
    }
}

/// Adds the processor, the thread on whose part the frame stands, if any, and the frame's number.
pub(crate) fn put_frame(
    out: &mut Vec<u8>,
    input: &Input,
    cpu: CpuNo,
    owner: Option<ThreadNo>,
    frame: u64,
) -> Result<(), AllocError>
    requires { IsSound input.now }
    ensures { OnOk result (out.new.items
        ≡ out.old.items ++ frame_fields input.now cpu owner frame) }
{
    put_cpu(out, cpu)?;
    put_owner(out, input, owner)?;
    put_counted(out, b"frame", frame)
}
