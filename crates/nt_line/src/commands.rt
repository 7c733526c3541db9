//! The command of a line in a routine. Each verb with fields has a function of its own, which isn't
//! inlined: so `command` sets up no place for what the other verbs read.
ghost use Rattle.std.specs.Prelude.{◌≡◌, IfOk};
ghost use Rattle.nt_event.specs.declared.commands.Command.TheVariants as cmd;
ghost use Rattle.nt_line.specs.Fields.{read_number, read_interrupt, read_cpu, read_target};
ghost use Rattle.nt_line.specs.Fields.{read_importance, read_mode, read_alertable, read_dpc};
ghost use Rattle.nt_line.specs.Fields.{read_timer, read_thread, read_apc, read_lock, read_level};
ghost use Rattle.nt_line.specs.Keywords.{verb_arity};
ghost use Rattle.nt_line.specs.Commands.{read1, read2, read3, behind, command_of};

use crate::fields;
use crate::keywords::Verb;
use crate::names::Names;
use nt_event::Command;
use nt_text::{Fields, ScriptKind};

#[inline(never)]
fn raise(args: &mut Fields) -> Result<Command, ScriptKind>
    ensures value { result ≡ read1 read_level cmd.Raise args.old }
    ensures rest { IfOk result (λ c. args.new ≡ behind 1 args.old) }
{
    Ok(Command::Raise(fields::level(args.need()?)?))
}

#[inline(never)]
fn lower(args: &mut Fields) -> Result<Command, ScriptKind>
    ensures value { result ≡ read1 read_level cmd.Lower args.old }
    ensures rest { IfOk result (λ c. args.new ≡ behind 1 args.old) }
{
    Ok(Command::Lower(fields::level(args.need()?)?))
}

#[inline(never)]
fn queue(names: &Names, args: &mut Fields) -> Result<Command, ScriptKind>
    ensures value { result ≡ read1 (read_dpc names.now) cmd.Queue args.old }
    ensures rest { IfOk result (λ c. args.new ≡ behind 1 args.old) }
{
    Ok(Command::Queue(fields::dpc(names, args.need()?)?))
}

#[inline(never)]
fn unqueue(names: &Names, args: &mut Fields) -> Result<Command, ScriptKind>
    ensures value { result ≡ read1 (read_dpc names.now) cmd.Unqueue args.old }
    ensures rest { IfOk result (λ c. args.new ≡ behind 1 args.old) }
{
    Ok(Command::Unqueue(fields::dpc(names, args.need()?)?))
}

#[inline(never)]
fn cancel_timer(names: &Names, args: &mut Fields) -> Result<Command, ScriptKind>
    ensures value { result ≡ read1 (read_timer names.now) cmd.CancelTimer args.old }
    ensures rest { IfOk result (λ c. args.new ≡ behind 1 args.old) }
{
    Ok(Command::CancelTimer(fields::timer(names, args.need()?)?))
}

#[inline(never)]
fn insert_apc(names: &Names, args: &mut Fields) -> Result<Command, ScriptKind>
    ensures value { result ≡ read1 (read_apc names.now) cmd.InsertApc args.old }
    ensures rest { IfOk result (λ c. args.new ≡ behind 1 args.old) }
{
    Ok(Command::InsertApc(fields::apc(names, args.need()?)?))
}

#[inline(never)]
fn remove_apc(names: &Names, args: &mut Fields) -> Result<Command, ScriptKind>
    ensures value { result ≡ read1 (read_apc names.now) cmd.RemoveApc args.old }
    ensures rest { IfOk result (λ c. args.new ≡ behind 1 args.old) }
{
    Ok(Command::RemoveApc(fields::apc(names, args.need()?)?))
}

#[inline(never)]
fn release(names: &Names, args: &mut Fields) -> Result<Command, ScriptKind>
    ensures value { result ≡ read1 (read_thread names.now) cmd.Release args.old }
    ensures rest { IfOk result (λ c. args.new ≡ behind 1 args.old) }
{
    Ok(Command::Release(fields::thread(names, args.need()?)?))
}

#[inline(never)]
fn test_alert(args: &mut Fields) -> Result<Command, ScriptKind>
    ensures value { result ≡ read1 read_mode cmd.TestAlert args.old }
    ensures rest { IfOk result (λ c. args.new ≡ behind 1 args.old) }
{
    Ok(Command::TestAlert(fields::mode(args.need()?)?))
}

#[inline(never)]
fn clock(args: &mut Fields) -> Result<Command, ScriptKind>
    ensures value { result ≡ read1 (read_number 4294967295) cmd.Clock args.old }
    ensures rest { IfOk result (λ c. args.new ≡ behind 1 args.old) }
{
    Ok(Command::Clock(fields::number(args.need()?, u32::MAX)?))
}

#[inline(never)]
fn acquire(names: &Names, args: &mut Fields) -> Result<Command, ScriptKind>
    ensures value { result ≡ read1 (read_lock names.now) cmd.Acquire args.old }
    ensures rest { IfOk result (λ c. args.new ≡ behind 1 args.old) }
{
    Ok(Command::Acquire(fields::lock(names, args.need()?)?))
}

#[inline(never)]
fn unlock(names: &Names, args: &mut Fields) -> Result<Command, ScriptKind>
    ensures value { result ≡ read1 (read_lock names.now) cmd.Unlock args.old }
    ensures rest { IfOk result (λ c. args.new ≡ behind 1 args.old) }
{
    Ok(Command::Unlock(fields::lock(names, args.need()?)?))
}

#[inline(never)]
fn note(args: &mut Fields) -> Result<Command, ScriptKind>
    ensures value { result ≡ read1 (read_number 4294967295) cmd.Note args.old }
    ensures rest { IfOk result (λ c. args.new ≡ behind 1 args.old) }
{
    Ok(Command::Note(fields::number(args.need()?, u32::MAX)?))
}

#[inline(never)]
fn set_importance(names: &Names, args: &mut Fields) -> Result<Command, ScriptKind>
    ensures value { result ≡ read2 (read_dpc names.now) read_importance cmd.SetImportance args.old }
    ensures rest { IfOk result (λ c. args.new ≡ behind 2 args.old) }
{
    let dpc = fields::dpc(names, args.need()?)?;
    let importance = fields::importance(args.need()?)?;
    Ok(Command::SetImportance(dpc, importance))
}

#[inline(never)]
fn set_target(names: &Names, cpus: u8, args: &mut Fields) -> Result<Command, ScriptKind>
    ensures value { result ≡ read2 (read_dpc names.now) (read_target cpus) cmd.SetTarget args.old }
    ensures rest { IfOk result (λ c. args.new ≡ behind 2 args.old) }
{
    let dpc = fields::dpc(names, args.need()?)?;
    let target = fields::target(cpus, args.need()?)?;
    Ok(Command::SetTarget(dpc, target))
}

#[inline(never)]
fn set_timer(names: &Names, args: &mut Fields) -> Result<Command, ScriptKind>
    ensures value { result ≡ read3 (read_timer names.now) (read_number 4294967295)
        (read_number 4294967295) cmd.SetTimer args.old }
    ensures rest { IfOk result (λ c. args.new ≡ behind 3 args.old) }
{
    let timer = fields::timer(names, args.need()?)?;
    let due = fields::number(args.need()?, u32::MAX)?;
    let period = fields::number(args.need()?, u32::MAX)?;
    Ok(Command::SetTimer(timer, due, period))
}

#[inline(never)]
fn start_wait(args: &mut Fields) -> Result<Command, ScriptKind>
    ensures value { result ≡ read2 read_mode read_alertable cmd.StartWait args.old }
    ensures rest { IfOk result (λ c. args.new ≡ behind 2 args.old) }
{
    let mode = fields::mode(args.need()?)?;
    let alertable = fields::alertable(args.need()?)?;
    Ok(Command::StartWait(mode, alertable))
}

#[inline(never)]
fn delay(args: &mut Fields) -> Result<Command, ScriptKind>
    ensures value { result
        ≡ read3 read_mode read_alertable (read_number 4294967295) cmd.Delay args.old }
    ensures rest { IfOk result (λ c. args.new ≡ behind 3 args.old) }
{
    let mode = fields::mode(args.need()?)?;
    let alertable = fields::alertable(args.need()?)?;
    let units = fields::number(args.need()?, u32::MAX)?;
    Ok(Command::Delay(mode, alertable, units))
}

#[inline(never)]
fn alert(names: &Names, args: &mut Fields) -> Result<Command, ScriptKind>
    ensures value { result ≡ read2 (read_thread names.now) read_mode cmd.Alert args.old }
    ensures rest { IfOk result (λ c. args.new ≡ behind 2 args.old) }
{
    let thread = fields::thread(names, args.need()?)?;
    let mode = fields::mode(args.need()?)?;
    Ok(Command::Alert(thread, mode))
}

#[inline(never)]
fn interrupt(cpus: u8, args: &mut Fields) -> Result<Command, ScriptKind>
    ensures value { result ≡ read2 (read_cpu cpus) read_interrupt cmd.Interrupt args.old }
    ensures rest { IfOk result (λ c. args.new ≡ behind 2 args.old) }
{
    let cpu = fields::cpu(cpus, args.need()?)?;
    let level = fields::interrupt(args.need()?)?;
    Ok(Command::Interrupt(cpu, level))
}

/// The command of a verb and the fields behind it. The fields are tested from left to right;
/// MissingField comes at the first that is not there. After the command stand the fields that are
/// left.
pub fn command(
    names: &Names,
    cpus: u8,
    verb: Verb,
    args: &mut Fields,
) -> Result<Command, ScriptKind>
    ensures value { result ≡ command_of names.now cpus verb args.old }
    ensures rest { IfOk result (λ c. args.new ≡ behind (verb_arity verb) args.old) }
{
    match verb {
        Verb::Raise => raise(args),
        Verb::Lower => lower(args),
        Verb::Queue => queue(names, args),
        Verb::Unqueue => unqueue(names, args),
        Verb::SetImportance => set_importance(names, args),
        Verb::SetTarget => set_target(names, cpus, args),
        Verb::SetTimer => set_timer(names, args),
        Verb::CancelTimer => cancel_timer(names, args),
        Verb::InsertApc => insert_apc(names, args),
        Verb::RemoveApc => remove_apc(names, args),
        Verb::EnterCrit => Ok(Command::EnterCrit),
        Verb::EnterGuard => Ok(Command::EnterGuard),
        Verb::LeaveCrit => Ok(Command::LeaveCrit),
        Verb::LeaveGuard => Ok(Command::LeaveGuard),
        Verb::StartWait => start_wait(args),
        Verb::Delay => delay(args),
        Verb::Release => release(names, args),
        Verb::Alert => alert(names, args),
        Verb::TestAlert => test_alert(args),
        Verb::Interrupt => interrupt(cpus, args),
        Verb::Clock => clock(args),
        Verb::ToUser => Ok(Command::ToUser),
        Verb::Yield => Ok(Command::Yield),
        Verb::Acquire => acquire(names, args),
        Verb::Unlock => unlock(names, args),
        Verb::Note => note(args),
    }
}
