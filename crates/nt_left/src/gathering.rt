//! What is left, kind after kind.
ghost use Rattle.std.specs.Prelude.{◌≡◌, ◌++◌, IfSome, IsTrue, OnOk, option_map};
ghost use Rattle.nt_event.specs.Objects.{standing};
ghost use Rattle.nt_event.specs.Script.{has_cpu, has_dpc};
ghost use Rattle.nt_left.specs.Ending.{IsEnd};
ghost use Rattle.nt_left.specs.Items.{apc_item, apc_items, apc_part, cpu_part, dpc_item, dpc_part};
ghost use Rattle.nt_left.specs.Items.{frame_part, frames_on, thread_part, threads_on, timer_part};
ghost use Rattle.nt_left.specs.Walks.{past_of};

use crate::causes::{apc_cause, cpu_cause};
use crate::cpus::cpu_left;
use crate::ending::End;
use crate::frames::put_each;
use crate::kinds::Left;
use crate::listing::put;
use crate::numbers::number_of;
use crate::settings::{setting_of, timer_left};
use crate::threads::thread_left;
use nt_cpu::Cpu;
use nt_event::{CpuNo, DpcNo, Pick, ThreadNo, TimerNo};
use nt_states::LaneAnswers;
use nt_thread::ThreadState;
use std::alloc::AllocError;

/// Adds the processors that are cut or spin still.
pub(crate) fn put_cpus(out: &mut Vec<Left>, end: &End) -> Result<(), AllocError>
    requires { IsEnd end.now }
    ensures { OnOk result (out.new.items ≡ out.old.items
        ++ cpu_part end.now.script.now end.now.limit (past_of end.now.events)) }
{
    for number in 0..end.script.cpus {
        let cpu = CpuNo(number);
        put(out, cpu_left(end.limit, cpu, end.cpu(cpu)))?;
    }
    Ok(())
}

/// Adds the threads that are blocked or ready.
pub(crate) fn put_threads(out: &mut Vec<Left>, end: &End) -> Result<(), AllocError>
    requires { IsEnd end.now }
    ensures { OnOk result (out.new.items ≡ out.old.items
        ++ thread_part end.now.script.now (past_of end.now.events)) }
{
    let count = end.script.threads.len() as u16;
    for number in 0..count {
        let thread = ThreadNo(number);
        let frames = end.frames(end.script.cpu_of(thread), thread);
        put(out, thread_left(thread, end.thread(thread).doing(), frames))?;
    }
    Ok(())
}

/// Adds the timers that are set.
pub(crate) fn put_timers(out: &mut Vec<Left>, end: &End) -> Result<(), AllocError>
    requires { IsEnd end.now }
    ensures { OnOk result (out.new.items ≡ out.old.items
        ++ timer_part end.now.script.now (past_of end.now.events)) }
{
    let count = end.script.timers.len() as u16;
    for number in 0..count {
        let timer = TimerNo(number);
        put(out, timer_left(timer, setting_of(&end.events, timer)))?;
    }
    Ok(())
}

/// Adds what the frames of threads leave that stand on a processor.
fn put_threads_on(out: &mut Vec<Left>, end: &End, cpu: CpuNo) -> Result<(), AllocError>
    requires end { IsEnd end.now }
    requires cpu { IsTrue (has_cpu end.now.script.now cpu) }
    ensures { OnOk result (out.new.items ≡ out.old.items
        ++ threads_on end.now.script.now (past_of end.now.events) cpu) }
{
    let count = end.script.threads.len() as u16;
    for number in 0..count {
        let thread = ThreadNo(number);
        put_each(out, cpu, Some(thread), end.frames(cpu, thread))?;
    }
    Ok(())
}

/// Adds what the frames on a processor leave.
fn put_frames_on(out: &mut Vec<Left>, end: &End, cpu: CpuNo) -> Result<(), AllocError>
    requires end { IsEnd end.now }
    requires cpu { IsTrue (has_cpu end.now.script.now cpu) }
    ensures { OnOk result (out.new.items ≡ out.old.items
        ++ frames_on end.now.script.now (past_of end.now.events) cpu) }
{
    put_each(out, cpu, None, end.cpu(cpu).frames().own())?;
    put_threads_on(out, end, cpu)
}

/// Adds what frames leave, processor after processor.
pub(crate) fn put_frames(out: &mut Vec<Left>, end: &End) -> Result<(), AllocError>
    requires { IsEnd end.now }
    ensures { OnOk result (out.new.items ≡ out.old.items
        ++ frame_part end.now.script.now (past_of end.now.events)) }
{
    for number in 0..end.script.cpus {
        put_frames_on(out, end, CpuNo(number))?;
    }
    Ok(())
}

/// The processor in whose queue the object stands.
fn queue_of(end: &End, dpc: DpcNo) -> Option<CpuNo>
    requires end { IsEnd end.now }
    requires dpc { IsTrue (has_dpc end.now.script.now dpc) }
    ensures queue { result ≡ option_map (λ x. x.queue) (standing dpc (past_of end.now.events)) }
    ensures named { IfSome result (λ p. IsTrue (has_cpu end.now.script.now p)) }
{
    end.floor.states().standing(dpc)
}

/// What is left of a DPC object, where an insert of it is pending.
fn dpc_left(end: &End, dpc: DpcNo) -> Option<Left>
    requires end { IsEnd end.now }
    requires dpc { IsTrue (has_dpc end.now.script.now dpc) }
    ensures { result ≡ dpc_item end.now.script.now end.now.limit (past_of end.now.events) dpc
        (standing dpc (past_of end.now.events)) }
{
    match queue_of(end, dpc) {
        Some(queue) => match number_of(&end.events, dpc) {
            Some(number) => Some(Left::Dpc {
                dpc,
                number,
                queue,
                cause: cpu_cause(end.limit, end.cpu(queue)),
            }),
            None => None,
        },
        None => None,
    }
}

/// Adds the pending inserts of DPC objects.
pub(crate) fn put_dpcs(out: &mut Vec<Left>, end: &End) -> Result<(), AllocError>
    requires { IsEnd end.now }
    ensures { OnOk result (out.new.items ≡ out.old.items
        ++ dpc_part end.now.script.now end.now.limit (past_of end.now.events)) }
{
    let count = end.script.dpcs.len() as u16;
    for number in 0..count {
        put(out, dpc_left(end, DpcNo(number)))?;
    }
    Ok(())
}

/// What is left of a pending insert of an APC object of the thread, whose processor this is.
fn apc_left(limit: u32, cpu: &Cpu, thread: ThreadNo, state: &ThreadState, pick: &Pick) -> Left
    ensures { result ≡ apc_item limit cpu.now.own thread state.now.doing pick.now }
{
    Left::Apc {
        apc: pick.apc,
        number: pick.number,
        thread,
        cause: apc_cause(limit, cpu, state, pick.kind),
    }
}

/// Adds the pending inserts of APC objects of a thread, whose processor this is.
fn put_picks(
    out: &mut Vec<Left>,
    limit: u32,
    cpu: &Cpu,
    thread: ThreadNo,
    state: &ThreadState,
) -> Result<(), AllocError>
    ensures { OnOk result (out.new.items ≡ out.old.items
        ++ apc_items limit cpu.now.own thread state.now) }
{
    let pending = state.apcs().pending();
    for pick in pending {
        out.push(apc_left(limit, cpu, thread, state, pick))?;
    }
    Ok(())
}

/// Adds the pending inserts of APC objects, thread after thread.
pub(crate) fn put_apcs(out: &mut Vec<Left>, end: &End) -> Result<(), AllocError>
    requires { IsEnd end.now }
    ensures { OnOk result (out.new.items ≡ out.old.items
        ++ apc_part end.now.script.now end.now.limit (past_of end.now.events)) }
{
    let count = end.script.threads.len() as u16;
    for number in 0..count {
        let thread = ThreadNo(number);
        let cpu = end.cpu(end.script.cpu_of(thread));
        put_picks(out, end.limit, cpu, thread, end.thread(thread))?;
    }
    Ok(())
}
