//! What processors keep, without the numbers of events.
ghost use Rattle.std.specs.Prelude.{◌≡◌, All, IfOk, map};
ghost use Rattle.nt_shade.specs.Cpus.{HasFewThreads, cpu_said, kept_but_dues};

use crate::frames::{ShadeFrame, own_part, thread_parts};
use nt_cpu::Cpu;
use nt_event::{DpcNo, ThreadNo};
use std::alloc::{AllocError, Global};

/// What a processor keeps, but for which classes are due.
#[derive(Clone, PartialEq, Eq, Hash, Drop, Debug)]
pub struct ShadeCpu {
    /// The frames on its own part, the outermost first.
    pub own: Vec<ShadeFrame>,
    /// The thread that runs.
    pub running: Option<ThreadNo>,
    /// The frames of each thread, the outermost first.
    pub threads: Vec<Vec<ShadeFrame>>,
    /// Whether its last event is Rest.
    pub rested: bool,
    /// The DPC that it has to fire, by an expiry that it made.
    pub fire: Option<DpcNo>,
    /// Whether it owes a sweep of the timers.
    pub sweep: bool,
}

/// What stands of a processor.
fn cpu_of(alloc: Global, cpu: &Cpu) -> Result<ShadeCpu, AllocError>
    requires { HasFewThreads cpu.now }
    ensures { IfOk result (λ x. cpu_said x ≡ kept_but_dues cpu.now.own) }
{
    let frames = cpu.frames();
    Ok(ShadeCpu {
        own: own_part(alloc, frames)?,
        running: frames.running(),
        threads: thread_parts(alloc, frames)?,
        rested: cpu.rested(),
        fire: cpu.fire(),
        sweep: cpu.owes_sweep(),
    })
}

/// What stands of processors, in their order.
pub fn cpus_of(alloc: Global, cpus: &[Cpu]) -> Result<Vec<ShadeCpu>, AllocError>
    requires { All HasFewThreads cpus.now }
    ensures { IfOk result (λ v. map cpu_said v.items ≡ map (λ c. kept_but_dues c.own) cpus.now) }
{
    let mut shades = Vec::with_capacity(alloc, cpus.len())?;
    for cpu in cpus {
        shades.push(cpu_of(alloc, cpu)?)?;
    }
    Ok(shades)
}
