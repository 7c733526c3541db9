//! What a line declares: the fields behind its keyword, and behind its name where it has one.
ghost use Rattle.std.specs.Prelude.{◌≡◌};
ghost use Rattle.nt_line.specs.Declarations.{isr_of, dpc_of, timer_of, thread_of, apc_of};

use crate::fields;
use crate::names::Names;
use nt_event::{ApcDecl, ApcKind, DpcDecl, Isr, ThreadDecl, TimerDecl};
use nt_text::{Fields, ScriptKind};

/// An interrupt routine: processor, level, routine.
pub fn isr(names: &Names, cpus: u8, args: &mut Fields) -> Result<Isr, ScriptKind>
    ensures { result ≡ isr_of names.now cpus args.old }
{
    let cpu = fields::cpu(cpus, args.need()?)?;
    let level = fields::isr_level(args.need()?)?;
    let routine = fields::routine(names, args.need()?)?;
    Ok(Isr {
        cpu,
        level,
        routine,
    })
}

/// A DPC object: routine.
pub fn dpc(names: &Names, threaded: bool, args: &mut Fields) -> Result<DpcDecl, ScriptKind>
    ensures { result ≡ dpc_of names.now threaded args.old }
{
    let routine = fields::routine(names, args.need()?)?;
    Ok(DpcDecl { threaded, routine })
}

/// A timer: DPC object or none.
pub fn timer(names: &Names, args: &mut Fields) -> Result<TimerDecl, ScriptKind>
    ensures { result ≡ timer_of names.now args.old }
{
    let dpc = fields::timer_dpc(names, args.need()?)?;
    Ok(TimerDecl { dpc })
}

/// A thread: processor, routine.
pub fn thread(names: &Names, cpus: u8, args: &mut Fields) -> Result<ThreadDecl, ScriptKind>
    ensures { result ≡ thread_of names.now cpus args.old }
{
    let cpu = fields::cpu(cpus, args.need()?)?;
    let routine = fields::routine(names, args.need()?)?;
    Ok(ThreadDecl { cpu, routine })
}

/// An APC object: thread, kernel routine; of a normal or user one the normal routine; of a user one
/// the rundown routine or none.
pub fn apc(names: &Names, kind: ApcKind, args: &mut Fields) -> Result<ApcDecl, ScriptKind>
    ensures { result ≡ apc_of names.now kind args.old }
{
    let thread = fields::thread(names, args.need()?)?;
    let kernel = fields::routine(names, args.need()?)?;
    match kind {
        ApcKind::Special => Ok(ApcDecl {
            kind,
            thread,
            kernel,
            normal: None,
            rundown: None,
        }),
        ApcKind::Normal => {
            let normal = fields::routine(names, args.need()?)?;
            Ok(ApcDecl {
                kind,
                thread,
                kernel,
                normal: Some(normal),
                rundown: None,
            })
        }
        ApcKind::User => {
            let normal = fields::routine(names, args.need()?)?;
            let rundown = fields::rundown(names, args.need()?)?;
            Ok(ApcDecl {
                kind,
                thread,
                kernel,
                normal: Some(normal),
                rundown,
            })
        }
    }
}
