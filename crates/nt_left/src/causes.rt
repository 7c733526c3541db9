//! What holds back a pending insert.
ghost use Rattle.std.specs.Prelude.{◌≡◌};
ghost use Rattle.nt_event.specs.Step.{is_cut as is_cut_at};
ghost use Rattle.nt_left.specs.Causes.{apc_cause as apc_cause_of, cpu_cause as cpu_cause_of};
ghost use Rattle.nt_left.specs.Causes.{kernel_cause as kernel_cause_of};
ghost use Rattle.nt_left.specs.Causes.{wait_cause as wait_cause_of};

use crate::kinds::{ApcCause, CpuCause};
use nt_cpu::Cpu;
use nt_event::{ApcKind, Doing, Level, Waiting};
use nt_thread::ThreadState;

/// Whether the processor made as many events as it may.
pub(crate) fn is_cut(limit: u32, cpu: &Cpu) -> bool
    ensures { result ≡ is_cut_at limit cpu.now.own }
{
    limit <= cpu.made()
}

/// What a processor is that does nothing more and still has something to do.
pub(crate) fn cpu_cause(limit: u32, cpu: &Cpu) -> CpuCause
    ensures { result ≡ cpu_cause_of limit cpu.now.own }
{
    if is_cut(limit, cpu) {
        CpuCause::Cut
    } else {
        CpuCause::Spins
    }
}

/// What holds back a kernel APC of a thread that is blocked.
fn kernel_cause(wait: &Waiting) -> ApcCause
    ensures { result ≡ kernel_cause_of wait.now }
{
    if wait.level != Level::PASSIVE {
        ApcCause::Level
    } else if wait.regions.guard != 0 {
        ApcCause::Guarded
    } else if wait.regions.crit != 0 {
        ApcCause::Critical
    } else {
        ApcCause::InProgress
    }
}

/// What holds back an APC of this kind of a thread that is blocked.
fn wait_cause(wait: &Waiting, kind: ApcKind) -> ApcCause
    ensures { result ≡ wait_cause_of wait.now kind }
{
    match kind {
        ApcKind::Special | ApcKind::Normal => kernel_cause(wait),
        ApcKind::User => ApcCause::Wait,
    }
}

/// What holds back an APC of this kind of the thread, whose processor this is.
pub(crate) fn apc_cause(limit: u32, cpu: &Cpu, thread: &ThreadState, kind: ApcKind) -> ApcCause
    ensures { result ≡ apc_cause_of limit cpu.now.own thread.now.doing kind }
{
    match thread.doing() {
        Doing::Gone => ApcCause::Gone,
        Doing::Blocked(wait) => wait_cause(wait, kind),
        Doing::Ready { .. } | Doing::Running => ApcCause::Stopped(cpu_cause(limit, cpu)),
    }
}
