//! The text of an input, line by line.
ghost use Rattle.std.specs.Prelude.{◌≡◌, ◌<◌, ◌≤◌, ◌∷◌, ◌++◌, [], length, map, All, OnOk, IfOk};
ghost use Rattle.nt_text.specs.Lines.{row_text, rows_text};
ghost use Rattle.nt_line.specs.declared.keywords.Keyword.TheVariants as keyword;
ghost use Rattle.nt_line.specs.Keywords.{text_of};
ghost use Rattle.nt_line.specs.NameLists.{show_routine};
ghost use Rattle.nt_line.specs.Fits.{IsrFits, DpcFits, TimerFits, ThreadFits, ApcFits, CommandFits};
ghost use Rattle.nt_line.specs.Rows.{number_row, depth_rows, threaded_rows, command_row, isr_row};
ghost use Rattle.nt_line.specs.Rows.{dpc_row, timer_row, thread_row, apc_row, lock_row};
ghost use Rattle.nt_script.specs.Text.{version_rows, header_rows, declared_rows, begun_rows};
ghost use Rattle.nt_script.specs.Text.{exit_row, routine_rows, text};
ghost use Rattle.nt_script.specs.Sound.{IsSound};

use crate::walk::Input;
use nt_event::{
    ApcDecl, ApcNo, Command, DpcDecl, DpcNo, Isr, LockNo, Routine, RoutineNo, Script, ThreadDecl,
    ThreadNo, TimerDecl, TimerNo,
};
use nt_line::fields::on_off_text;
use nt_line::{Keyword, Names, put_apc, put_command, put_dpc, put_isr, put_thread, put_timer};
use nt_text::{put_field, put_number};
use std::alloc::{AllocError, Global};

/// Adds a line of a keyword and a number.
fn put_number_line(out: &mut Vec<u8>, keyword: Keyword, n: u64) -> Result<(), AllocError>
    ensures { OnOk result (out.new.items ≡ out.old.items ++ row_text (number_row keyword n)) }
{
    out.extend_from_slice(keyword.text())?;
    put_number(out, n)?;
    out.push(b'\n')?;
    Ok(())
}

/// Adds a line of a keyword and a field.
fn put_field_line(out: &mut Vec<u8>, keyword: Keyword, field: &[u8]) -> Result<(), AllocError>
    ensures { OnOk result
        (out.new.items ≡ out.old.items ++ row_text (text_of keyword ∷ field.now ∷ [])) }
{
    out.extend_from_slice(keyword.text())?;
    put_field(out, field)?;
    out.push(b'\n')?;
    Ok(())
}

/// Adds the first line of a routine.
fn put_begin(out: &mut Vec<u8>, names: &Names, r: RoutineNo) -> Result<(), AllocError>
    requires { r.0 < length names.now.routines }
    ensures { OnOk result (out.new.items
        ≡ out.old.items ++ row_text (text_of keyword.Routine ∷ show_routine names.now r ∷ [])) }
{
    put_field_line(out, Keyword::Routine, names.routine(r).as_bytes())
}

/// Adds the last line of a routine.
fn put_exit(out: &mut Vec<u8>) -> Result<(), AllocError>
    ensures { OnOk result (out.new.items ≡ out.old.items ++ row_text exit_row) }
{
    out.extend_from_slice(Keyword::Exit.text())?;
    out.push(b'\n')?;
    Ok(())
}

/// Adds the lines of a routine.
fn put_routine(
    out: &mut Vec<u8>,
    names: &Names,
    cpus: u8,
    r: RoutineNo,
    commands: &[Command],
) -> Result<(), AllocError>
    requires named { r.0 < length names.now.routines }
    requires fits { All (CommandFits names.now cpus) commands.now }
    ensures { OnOk result (out.new.items ≡ out.old.items ++ rows_text
        (begun_rows names.now (show_routine names.now r) commands.now ++ exit_row ∷ [])) }
{
    put_begin(out, names, r)?;
    put_commands(out, names, cpus, commands)?;
    put_exit(out)?;
    Ok(())
}

#[tactic(auto, using(crate::proofs::CommandNames::fits_named))]
fn put_commands(
    out: &mut Vec<u8>,
    names: &Names,
    cpus: u8,
    commands: &[Command],
) -> Result<(), AllocError>
    requires { All (CommandFits names.now cpus) commands.now }
    ensures { OnOk result
        (out.new.items ≡ out.old.items ++ rows_text (map (command_row names.now) commands.now)) }
{
    for command in commands {
        put_command(out, names, command)?;
        out.push(b'\n')?;
    }
    Ok(())
}

fn put_isrs(out: &mut Vec<u8>, names: &Names, cpus: u8, isrs: &[Isr]) -> Result<(), AllocError>
    requires { All (IsrFits names.now cpus) isrs.now }
    ensures { OnOk result
        (out.new.items ≡ out.old.items ++ rows_text (map (isr_row names.now) isrs.now)) }
{
    for isr in isrs {
        put_isr(out, names, cpus, isr)?;
    }
    Ok(())
}

fn put_dpcs(out: &mut Vec<u8>, names: &Names, dpcs: &[DpcDecl]) -> Result<(), AllocError>
    requires count { length names.now.dpcs ≡ length dpcs.now }
    requires few { length dpcs.now ≤ 256 }
    requires fits { All (DpcFits names.now) dpcs.now }
    ensures { OnOk result (out.new.items
        ≡ out.old.items ++ rows_text (declared_rows (dpc_row names.now) names.now.dpcs dpcs.now)) }
{
    for (i, dpc) in dpcs.iter().enumerate() {
        put_dpc(out, names, DpcNo(i as u16), dpc)?;
    }
    Ok(())
}

fn put_timers(out: &mut Vec<u8>, names: &Names, timers: &[TimerDecl]) -> Result<(), AllocError>
    requires count { length names.now.timers ≡ length timers.now }
    requires few { length timers.now ≤ 256 }
    requires fits { All (TimerFits names.now) timers.now }
    ensures { OnOk result (out.new.items ≡ out.old.items
        ++ rows_text (declared_rows (timer_row names.now) names.now.timers timers.now)) }
{
    for (i, timer) in timers.iter().enumerate() {
        put_timer(out, names, TimerNo(i as u16), timer)?;
    }
    Ok(())
}

fn put_threads(
    out: &mut Vec<u8>,
    names: &Names,
    cpus: u8,
    threads: &[ThreadDecl],
) -> Result<(), AllocError>
    requires count { length names.now.threads ≡ length threads.now }
    requires few { length threads.now ≤ 256 }
    requires fits { All (ThreadFits names.now cpus) threads.now }
    ensures { OnOk result (out.new.items ≡ out.old.items
        ++ rows_text (declared_rows (thread_row names.now) names.now.threads threads.now)) }
{
    for (i, thread) in threads.iter().enumerate() {
        put_thread(out, names, cpus, ThreadNo(i as u16), thread)?;
    }
    Ok(())
}

fn put_apcs(out: &mut Vec<u8>, names: &Names, apcs: &[ApcDecl]) -> Result<(), AllocError>
    requires count { length names.now.apcs ≡ length apcs.now }
    requires few { length apcs.now ≤ 256 }
    requires fits { All (ApcFits names.now) apcs.now }
    ensures { OnOk result (out.new.items
        ≡ out.old.items ++ rows_text (declared_rows (apc_row names.now) names.now.apcs apcs.now)) }
{
    for (i, apc) in apcs.iter().enumerate() {
        put_apc(out, names, ApcNo(i as u16), apc)?;
    }
    Ok(())
}

fn put_locks(out: &mut Vec<u8>, names: &Names, locks: u16) -> Result<(), AllocError>
    requires { length names.now.locks ≡ locks }
    ensures { OnOk result
        (out.new.items ≡ out.old.items ++ rows_text (map lock_row names.now.locks)) }
{
    for k in 0..locks {
        put_field_line(out, Keyword::Spinlock, names.lock(LockNo(k)).as_bytes())?;
    }
    Ok(())
}

fn put_routines(
    out: &mut Vec<u8>,
    names: &Names,
    cpus: u8,
    routines: &[Routine],
) -> Result<(), AllocError>
    requires count { length names.now.routines ≡ length routines.now }
    requires few { length routines.now ≤ 256 }
    requires fits { All (λ r. All (CommandFits names.now cpus) r.commands) routines.now }
    ensures { OnOk result (out.new.items
        ≡ out.old.items ++ rows_text (routine_rows names.now names.now.routines routines.now)) }
{
    for (i, routine) in routines.iter().enumerate() {
        put_routine(
            out,
            names,
            cpus,
            RoutineNo(i as u16),
            routine.commands.as_slice(),
        )?;
    }
    Ok(())
}

/// Adds the line of the version, which a text of version 1 doesn't have.
fn put_version(out: &mut Vec<u8>, version: u8) -> Result<(), AllocError>
    ensures { OnOk result (out.new.items ≡ out.old.items ++ rows_text (version_rows version)) }
{
    if version >= 2 {
        put_number_line(out, Keyword::Version, u64::from(version))
    } else {
        Ok(())
    }
}

/// Adds the line of the processors.
fn put_cpus(out: &mut Vec<u8>, cpus: u8) -> Result<(), AllocError>
    ensures { OnOk result
        (out.new.items ≡ out.old.items ++ row_text (number_row keyword.Cpus cpus)) }
{
    put_number_line(out, Keyword::Cpus, u64::from(cpus))
}

/// Adds the line of the depth, where one is given.
fn put_depth(out: &mut Vec<u8>, depth: Option<u32>) -> Result<(), AllocError>
    ensures { OnOk result (out.new.items ≡ out.old.items ++ rows_text (depth_rows depth)) }
{
    match depth {
        Some(depth) => put_number_line(out, Keyword::Depth, u64::from(depth)),
        None => Ok(()),
    }
}

/// Adds the line of the switch for threaded DPCs, where one is given.
fn put_threaded(out: &mut Vec<u8>, threaded: Option<bool>) -> Result<(), AllocError>
    ensures { OnOk result (out.new.items ≡ out.old.items ++ rows_text (threaded_rows threaded)) }
{
    match threaded {
        Some(on) => put_field_line(out, Keyword::Threaded, on_off_text(on)),
        None => Ok(()),
    }
}

/// Adds the lines of the head.
fn put_header(out: &mut Vec<u8>, version: u8, script: &Script) -> Result<(), AllocError>
    ensures { OnOk result (out.new.items ≡ out.old.items
        ++ rows_text (header_rows version script.now.cpus script.now.depth script.now.threaded)) }
{
    put_version(out, version)?;
    put_cpus(out, script.cpus)?;
    put_depth(out, script.depth)?;
    put_threaded(out, script.threaded)?;
    Ok(())
}

/// The one text that `read` reads as this input.
pub fn print(alloc: Global, input: &Input) -> Result<Vec<u8>, AllocError>
    requires { IsSound input.now }
    ensures { IfOk result (λ out. out.items ≡ text input.now) }
{
    let script = &input.script;
    let names = &input.names;
    let cpus = script.cpus;
    let mut out = Vec::new(alloc);
    put_header(&mut out, input.version, script)?;
    put_isrs(&mut out, names, cpus, script.isrs.as_slice())?;
    put_dpcs(&mut out, names, script.dpcs.as_slice())?;
    put_timers(&mut out, names, script.timers.as_slice())?;
    put_threads(&mut out, names, cpus, script.threads.as_slice())?;
    put_apcs(&mut out, names, script.apcs.as_slice())?;
    put_locks(&mut out, names, script.locks)?;
    put_routines(&mut out, names, cpus, script.routines.as_slice())?;
    Ok(out)
}
