//! The data of the machine: which small scripts fit, what a script says of its things, and the
//! small questions about the data.
use crate::writing::{no_such_case, write, write_pair};
use nt_event::{
    ApcDecl, ApcKind, ApcNo, Body, Command, CpuNo, DpcDecl, DpcNo, Isr, Items, Level, LockNo, Mode,
    Refusal, Regions, Reply, Routine, RoutineNo, ScheduleKind, Script, ThreadDecl, ThreadNo,
    TimerDecl, TimerNo, class,
};
use std::alloc::{AllocError, Global};
use std::io;

/// Writes the answers of a case.
pub fn answer(rt: HostRuntime, case: &str) -> io::Result<()> {
    match case {
        "commands name things of the script" => commands(rt),
        "a pair of processor and level has one routine" => pairs(rt),
        "only a user apc has a rundown routine" => apcs(rt),
        "what a script says of its things" => things(rt),
        "a frame calls the command at its place" => next_commands(rt),
        "refusals have their numbers and names" => numbers(rt),
        "items are kept in order" => items(rt),
        "replies, commands, kinds, regions and classes" => questions(rt),
        _ => no_such_case(rt),
    }
}

fn level(number: u8) -> Level {
    match Level::new(number) {
        Some(level) => level,
        None => Level::PASSIVE,
    }
}

fn isr(cpu: u8) -> Isr {
    Isr {
        cpu: CpuNo(cpu),
        level: level(5),
        routine: RoutineNo(0),
    }
}

/// Two processors with a thread on the second, an interrupt routine on each, a DPC object, its
/// timer, a spin lock, and one routine of these commands.
fn script(alloc: Global, commands: Vec<Command>) -> Result<Script, AllocError> {
    let routine = Routine {
        commands: Items::from_vec(commands),
    };
    let mut routines = Vec::new(alloc);
    routines.push(routine)?;
    script_of(alloc, routines)
}

/// The script of these routines, of which there is one.
fn script_of(alloc: Global, routines: Vec<Routine>) -> Result<Script, AllocError> {
    let mut made = Script {
        cpus: 2,
        depth: Some(256),
        threaded: None,
        isrs: Items::new(alloc),
        dpcs: Items::new(alloc),
        timers: Items::new(alloc),
        threads: Items::new(alloc),
        apcs: Items::new(alloc),
        routines: Items::from_vec(routines),
        locks: 1,
    };
    declare(&mut made)?;
    Ok(made)
}

/// Declares what is in each of these scripts.
fn declare(made: &mut Script) -> Result<(), AllocError> {
    let routine = RoutineNo(0);
    made.isrs.push(isr(0))?;
    made.isrs.push(isr(1))?;
    made.dpcs.push(DpcDecl {
        threaded: false,
        routine,
    })?;
    made.timers.push(TimerDecl {
        dpc: Some(DpcNo(0)),
    })?;
    made.threads.push(ThreadDecl {
        cpu: CpuNo(1),
        routine,
    })
}

/// An APC of the script's thread.
fn apc_of(kind: ApcKind, normal: Option<RoutineNo>, rundown: Option<RoutineNo>) -> ApcDecl {
    ApcDecl {
        kind,
        thread: ThreadNo(0),
        kernel: RoutineNo(0),
        normal,
        rundown,
    }
}

/// The script of no command, with this APC.
fn script_with(alloc: Global, apc: ApcDecl) -> Result<Script, AllocError> {
    let mut made = script(alloc, Vec::new(alloc))?;
    add_apc(&mut made, apc)?;
    Ok(made)
}

fn add_apc(made: &mut Script, apc: ApcDecl) -> Result<(), AllocError> {
    made.apcs.push(apc)
}

/// Whether the script of this command fits.
fn command_fits(alloc: Global, command: Command) -> Result<bool, AllocError> {
    let made = script(alloc, vec![in alloc; command]?)?;
    Ok(made.fits())
}

fn write_fits(rt: HostRuntime, command: Command) -> io::Result<()> {
    let fits = command_fits(rt.alloc(), command)?;
    write_pair(rt, &command, &fits)
}

fn commands(rt: HostRuntime) -> io::Result<()> {
    write_fits(rt, Command::Queue(DpcNo(0)))?;
    write_fits(rt, Command::Queue(DpcNo(1)))?;
    write_fits(rt, Command::SetTarget(DpcNo(0), Some(CpuNo(1))))?;
    write_fits(rt, Command::SetTarget(DpcNo(0), Some(CpuNo(2))))?;
    write_fits(rt, Command::SetTarget(DpcNo(0), None))?;
    write_fits(rt, Command::SetTimer(TimerNo(1), 0, 0))?;
    write_fits(rt, Command::Release(ThreadNo(1)))?;
    write_fits(rt, Command::InsertApc(ApcNo(0)))?;
    write_fits(rt, Command::Interrupt(CpuNo(1), level(5)))?;
    write_fits(rt, Command::Interrupt(CpuNo(1), Level::IPI))?;
    write_fits(rt, Command::Interrupt(CpuNo(1), Level::CLOCK))?;
    write_fits(rt, Command::Interrupt(CpuNo(1), Level::DISPATCH))?;
    write_fits(rt, Command::Acquire(LockNo(0)))?;
    write_fits(rt, Command::Unlock(LockNo(1)))?;
    write_fits(rt, Command::Note(4_294_967_295))
}

fn pairs(rt: HostRuntime) -> io::Result<()> {
    let mut made = script(rt.alloc(), Vec::new(rt.alloc()))?;
    write_pairs(rt, &mut made)
}

fn write_pairs(rt: HostRuntime, made: &mut Script) -> io::Result<()> {
    write(rt, "fits", &made.fits())?;
    write(rt, "of level 5", &made.isr_of(CpuNo(1), level(5)))?;
    write(rt, "of the clock", &made.isr_of(CpuNo(1), Level::CLOCK))?;
    made.isrs.push(isr(0))?;
    write(rt, "with one pair twice", &made.fits())
}

/// Whether the script with this APC fits.
fn apc_fits(alloc: Global, apc: ApcDecl) -> Result<bool, AllocError> {
    let made = script_with(alloc, apc)?;
    Ok(made.fits())
}

/// Writes whether a script fits with an APC of this kind, with or without these routines.
fn write_apc_fits(rt: HostRuntime, kind: ApcKind, normal: bool, rundown: bool) -> io::Result<()> {
    let routine = RoutineNo(0);
    let apc = apc_of(kind, normal.then_some(routine), rundown.then_some(routine));
    let fits = apc_fits(rt.alloc(), apc)?;
    println!(rt; "  {kind:?} normal {normal} rundown {rundown}: {fits}")
}

fn apcs(rt: HostRuntime) -> io::Result<()> {
    write_apc_fits(rt, ApcKind::Special, false, false)?;
    write_apc_fits(rt, ApcKind::Special, true, false)?;
    write_apc_fits(rt, ApcKind::Normal, true, false)?;
    write_apc_fits(rt, ApcKind::Normal, false, false)?;
    write_apc_fits(rt, ApcKind::Normal, true, true)?;
    write_apc_fits(rt, ApcKind::User, true, true)?;
    write_apc_fits(rt, ApcKind::User, false, false)
}

fn things(rt: HostRuntime) -> io::Result<()> {
    let apc = apc_of(ApcKind::User, Some(RoutineNo(0)), None);
    let made = script_with(rt.alloc(), apc)?;
    write_things(rt, &made)
}

/// Writes what a script says of its thread, its APC and its timer, and their routines.
fn write_things(rt: HostRuntime, made: &Script) -> io::Result<()> {
    if !made.fits() {
        return println!(rt; "  does not fit");
    }
    write(rt, "threads", &made.thread_count())?;
    write(rt, "thread 0 on", &made.cpu_of(ThreadNo(0)))?;
    if made.apcs.len() == 1 {
        write(rt, "apc 0 of", &made.owner_of(ApcNo(0)))?;
    }
    write(rt, "apc 0 is", &made.kind_of(ApcNo(0)))?;
    write(rt, "timer 0 inserts", &made.dpc_of(TimerNo(0)))?;
    write_routines(rt, made)
}

/// Writes which routines a script has for an APC and for interrupts.
fn write_routines(rt: HostRuntime, made: &Script) -> io::Result<()> {
    let apc = Body::Apc(ApcNo(0), ApcKind::User);
    let device = Body::Int(level(5));
    let clock = Body::Int(Level::CLOCK);
    write(rt, "apc 0 runs down by", &made.rundown_of(ApcNo(0)))?;
    write(rt, "kernel routine", &made.routine_of(CpuNo(1), &apc, true))?;
    write(
        rt,
        "device routine",
        &made.routine_of(CpuNo(1), &device, false),
    )?;
    write(
        rt,
        "clock routine",
        &made.routine_of(CpuNo(1), &clock, false),
    )
}

fn next_commands(rt: HostRuntime) -> io::Result<()> {
    let made = two_notes(rt.alloc())?;
    write_commands(rt, &made)
}

/// The script of a routine with two commands.
fn two_notes(alloc: Global) -> Result<Script, AllocError> {
    script(alloc, vec![in alloc; Command::Note(1), Command::Note(2)]?)
}

fn write_commands(rt: HostRuntime, made: &Script) -> io::Result<()> {
    let base = Body::Base(ThreadNo(0));
    write(rt, "at 0", &made.command_at(CpuNo(1), &base, false, 0))?;
    write(rt, "at 1", &made.command_at(CpuNo(1), &base, false, 1))?;
    write(rt, "at 2", &made.command_at(CpuNo(1), &base, false, 2))
}

fn write_refusal(rt: HostRuntime, refusal: Refusal) -> io::Result<()> {
    println!(rt; "  {} {}", refusal.number(), refusal.name())
}

fn write_kind(rt: HostRuntime, kind: ScheduleKind) -> io::Result<()> {
    println!(rt; "  {} {}", kind.number(), kind.name())
}

fn numbers(rt: HostRuntime) -> io::Result<()> {
    write_refusal(rt, Refusal::NotThread)?;
    write_refusal(rt, Refusal::NotGreater)?;
    write_refusal(rt, Refusal::NotEntered)?;
    write_refusal(rt, Refusal::NotLast)?;
    write_kind(rt, ScheduleKind::NoSuchCpu)?;
    write_kind(rt, ScheduleKind::Unfinished)
}

fn write_items(rt: HostRuntime, items: &[u32]) -> io::Result<()> {
    write_pair(rt, &items.len(), &items)
}

/// Items of two numbers.
fn two_items(items: &mut Items<u32>) -> Result<(), AllocError> {
    items.push(7)?;
    items.push(9)
}

fn items(rt: HostRuntime) -> io::Result<()> {
    let mut items = Items::new(rt.alloc());
    fill(rt, &mut items)?;
    let all = items.into_vec();
    write_count(rt, Items::from_vec(all).len())
}

fn fill(rt: HostRuntime, items: &mut Items<u32>) -> io::Result<()> {
    write(rt, "empty", &items.is_empty())?;
    two_items(items)?;
    write_items(rt, items.as_slice())
}

fn write_count(rt: HostRuntime, count: usize) -> io::Result<()> {
    println!(rt; "  {count}")
}

fn write_reply(rt: HostRuntime, reply: Reply) -> io::Result<()> {
    let is = (
        reply.is_done(),
        reply.is_yes(),
        reply.is_answer(),
        reply.is_blocked(),
        reply.is_refused(),
        reply.is_spin(),
    );
    write_pair(rt, &reply, &is)
}

fn write_lane(rt: HostRuntime, command: Command) -> io::Result<()> {
    println!(rt; "  {command:?} needs a lane {}", command.needs_lane())
}

fn questions(rt: HostRuntime) -> io::Result<()> {
    write_reply(rt, Reply::Done)?;
    write_reply(rt, Reply::yes_if(true))?;
    write_reply(rt, Reply::yes_if(false))?;
    write_reply(rt, Reply::Blocked)?;
    write_reply(rt, Reply::Refused(Refusal::TooHigh))?;
    write_reply(rt, Reply::Spin)?;
    write_lane(rt, Command::Yield)?;
    write_lane(rt, Command::EnterCrit)?;
    write_lane(rt, Command::StartWait(Mode::User, true))?;
    write_pair(rt, &ApcKind::Normal.is_kernel(), &ApcKind::User.is_kernel())?;
    let before = Regions {
        crit: 1,
        guard: 0,
        busy: false,
    };
    let now = Regions { crit: 0, ..before };
    write_pair(rt, &now.came_to_0(&before), &before.came_to_0(&now))?;
    println!(rt;
        "  {} {} {} {}",
        class::is_used(11),
        class::is_used(class::LOCK),
        class::is_used(class::CLOCK),
        class::is_used(15)
    )
}
