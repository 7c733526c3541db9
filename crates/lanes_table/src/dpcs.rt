//! The DPC objects and queues of a small script, by the events that its processors make.
ghost use Rattle.std.specs.Prelude.{◌≡◌, ◌<◌, ◌+◌, IfOk, IsTrue, OnOk, length};
ghost use Rattle.nt_event.specs.Replies.{yes_if};
ghost use Rattle.nt_event.specs.Script.{fits};

use crate::scripts::empty_script;
use nt_dpc_lanes::Dpcs;
use nt_event::{
    Begun, Command, CpuNo, DpcDecl, DpcNo, Importance, Items, Part, Reply, RoutineNo, Script,
    ThreadNo, What,
};
use std::alloc::{AllocError, Global};
use std::io;

const OWN: CpuNo = CpuNo(0);

const OTHER: CpuNo = CpuNo(1);

/// Writes the answers of a case.
pub fn answer(rt: HostRuntime, case: &str) -> io::Result<()> {
    match case {
        "a threaded dpc is ordinary where they are off" => threaded_or_not(rt),
        _ => started(rt, case),
    }
}

/// Writes the answers of a case that begins with the small script.
fn started(rt: HostRuntime, case: &str) -> io::Result<()> {
    let script = script(rt.alloc(), None)?;
    started_if_fit(rt, case, &script)
}

/// Writes the answers of a case that begins with this script, where it fits.
fn started_if_fit(rt: HostRuntime, case: &str, script: &Script) -> io::Result<()>
    requires objects { length script.now.dpcs ≡ 3 }
    requires cpus { script.now.cpus ≡ 2 }
{
    if script.fits() {
        started_with(rt, case, script)
    } else {
        println!(rt; "  no fit")
    }
}

/// Writes the answers of a case that begins with this script.
fn started_with(rt: HostRuntime, case: &str, script: &Script) -> io::Result<()>
    requires fits { IsTrue (fits script.now) }
    requires objects { length script.now.dpcs ≡ 3 }
    requires cpus { script.now.cpus ≡ 2 }
{
    let mut dpcs = Dpcs::new(rt.alloc(), script)?;
    answer_of(rt, case, &mut dpcs)
}

/// Writes the answers of a case of these objects and queues.
fn answer_of(rt: HostRuntime, case: &str, dpcs: &mut Dpcs<'_>) -> io::Result<()>
    requires objects { length dpcs.old.script.dpcs ≡ 3 }
    requires cpus { dpcs.old.script.cpus ≡ 2 }
{
    match case {
        "an insert stands where its target says" => an_insert_at_its_target(rt, dpcs),
        "an object is inserted once and removed once" => once_in_and_once_out(rt, dpcs),
        "high importance goes to the front" => high_goes_first(rt, dpcs),
        "an idle processor is asked" => an_idle_processor_is_asked(rt, dpcs),
        _ => println!(rt; "  no such case"),
    }
}

/// Two processors, two ordinary objects and one that is declared threaded.
fn script(alloc: Global, threaded: Option<bool>) -> Result<Script, AllocError>
    ensures cpus { IfOk result (λ s. s.cpus ≡ 2) }
    ensures objects { IfOk result (λ s. length s.dpcs ≡ 3) }
{
    let mut made = empty_script(alloc, threaded)?;
    declare(&mut made.dpcs)?;
    Ok(made)
}

/// Adds the three objects.
fn declare(dpcs: &mut Items<DpcDecl>) -> Result<(), AllocError>
    ensures { OnOk result (length dpcs.new ≡ length dpcs.old + 3) }
{
    let routine = RoutineNo(0);
    dpcs.push(DpcDecl {
        threaded: false,
        routine,
    })?;
    dpcs.push(DpcDecl {
        threaded: false,
        routine,
    })?;
    dpcs.push(DpcDecl {
        threaded: true,
        routine,
    })
}

fn reply(yes: bool) -> Reply
    ensures { result ≡ yes_if yes }
{
    if yes { Reply::Yes } else { Reply::No }
}

/// The processor calls `queue`; whether the object is inserted.
fn queue(dpcs: &mut Dpcs<'_>, n: u64, p: CpuNo, d: DpcNo) -> bool
    requires objects { (length dpcs.old.script.dpcs ≡ 3) × (d.0 < 3) }
    requires cpus { (dpcs.old.script.cpus ≡ 2) × (p.0 < 2) }
    ensures objects { length dpcs.new.script.dpcs ≡ 3 }
    ensures cpus { dpcs.new.script.cpus ≡ 2 }
{
    let yes = !dpcs.is_queued(d);
    let call = What::Call {
        frame: 0,
        command: Command::Queue(d),
        reply: reply(yes),
    };
    dpcs.leave(n, p, &call);
    yes
}

/// The processor calls `unqueue`; whether the object is removed.
fn unqueue(dpcs: &mut Dpcs<'_>, n: u64, by: CpuNo, d: DpcNo) -> bool
    requires objects { (length dpcs.old.script.dpcs ≡ 3) × (d.0 < 3) }
    requires cpus { (dpcs.old.script.cpus ≡ 2) × (by.0 < 2) }
    ensures objects { length dpcs.new.script.dpcs ≡ 3 }
    ensures cpus { dpcs.new.script.cpus ≡ 2 }
{
    let yes = dpcs.is_queued(d);
    let call = What::Call {
        frame: 0,
        command: Command::Unqueue(d),
        reply: reply(yes),
    };
    dpcs.leave(n, by, &call);
    yes
}

/// Processor 0 sets the importance of the object.
fn set_importance(dpcs: &mut Dpcs<'_>, d: DpcNo, i: Importance)
    requires objects { (length dpcs.old.script.dpcs ≡ 3) × (d.0 < 3) }
    requires cpus { dpcs.old.script.cpus ≡ 2 }
    ensures objects { length dpcs.new.script.dpcs ≡ 3 }
    ensures cpus { dpcs.new.script.cpus ≡ 2 }
{
    let call = What::Call {
        frame: 0,
        command: Command::SetImportance(d, i),
        reply: Reply::Done,
    };
    dpcs.leave(1, CpuNo(0), &call);
}

/// Processor 0 makes processor 1 the target of the object.
fn set_target(dpcs: &mut Dpcs<'_>, d: DpcNo)
    requires objects { (length dpcs.old.script.dpcs ≡ 3) × (d.0 < 3) }
    requires cpus { dpcs.old.script.cpus ≡ 2 }
    ensures objects { length dpcs.new.script.dpcs ≡ 3 }
    ensures cpus { dpcs.new.script.cpus ≡ 2 }
{
    let call = What::Call {
        frame: 0,
        command: Command::SetTarget(d, Some(CpuNo(1))),
        reply: Reply::Done,
    };
    dpcs.leave(2, CpuNo(0), &call);
}

/// The first ordinary DPC of processor 0 begins, if there is one.
fn begin(dpcs: &mut Dpcs<'_>, n: u64) -> Option<DpcNo>
    requires objects { length dpcs.old.script.dpcs ≡ 3 }
    requires cpus { dpcs.old.script.cpus ≡ 2 }
    ensures objects { length dpcs.new.script.dpcs ≡ 3 }
    ensures cpus { dpcs.new.script.cpus ≡ 2 }
{
    let Some((d, from)) = dpcs.first(Part::Ordinary, CpuNo(0)) else {
        return None;
    };
    let what = What::Begin {
        begun: Begun::Dpc(d),
        from,
    };
    dpcs.leave(n, CpuNo(0), &what);
    Some(d)
}

/// Writes a call and whether it answered yes.
fn write_yes(rt: HostRuntime, call: &str, yes: bool) -> io::Result<()> {
    println!(rt; "  {call} {yes}")
}

/// Writes the processor in whose queue an insert of the object would stand.
fn write_queue_for(rt: HostRuntime, cpu: CpuNo) -> io::Result<()> {
    println!(rt; "  queue for {}", cpu.0)
}

fn write_standing(rt: HostRuntime, standing: Option<CpuNo>) -> io::Result<()> {
    println!(rt; "  standing {standing:?}")
}

fn write_first(rt: HostRuntime, call: &str, first: Option<(DpcNo, u64)>) -> io::Result<()> {
    println!(rt; "  {call} {first:?}")
}

fn write_begun(rt: HostRuntime, begun: Option<DpcNo>) -> io::Result<()> {
    println!(rt; "  begin {begun:?}")
}

/// Writes the class that an insert asks for, if any.
fn write_ask(rt: HostRuntime, of: &str, class: Option<u8>) -> io::Result<()> {
    println!(rt; "  {of} {class:?}")
}

fn an_insert_at_its_target(rt: HostRuntime, dpcs: &mut Dpcs<'_>) -> io::Result<()>
    requires objects { length dpcs.old.script.dpcs ≡ 3 }
    requires cpus { dpcs.old.script.cpus ≡ 2 }
{
    let d = DpcNo(1);
    write_queue_for(rt, dpcs.queue_for(d, OWN))?;
    set_target(dpcs, d);
    write_queue_for(rt, dpcs.queue_for(d, OWN))?;
    write_yes(rt, "queue", queue(dpcs, 5, OWN, d))?;
    write_yes(rt, "queued", dpcs.is_queued(d))?;
    write_standing(rt, dpcs.standing(d))?;
    write_first(rt, "first of 1", dpcs.first(Part::Ordinary, OTHER))?;
    write_first(rt, "first of 0", dpcs.first(Part::Ordinary, OWN))
}

fn once_in_and_once_out(rt: HostRuntime, dpcs: &mut Dpcs<'_>) -> io::Result<()>
    requires objects { length dpcs.old.script.dpcs ≡ 3 }
    requires cpus { dpcs.old.script.cpus ≡ 2 }
{
    let d = DpcNo(0);
    write_yes(rt, "queue", queue(dpcs, 5, OWN, d))?;
    write_yes(rt, "queue", queue(dpcs, 6, OWN, d))?;
    write_first(rt, "first", dpcs.first(Part::Ordinary, OWN))?;
    write_yes(rt, "unqueue", unqueue(dpcs, 7, OWN, d))?;
    write_yes(rt, "unqueue", unqueue(dpcs, 8, OWN, d))?;
    write_first(rt, "first", dpcs.first(Part::Ordinary, OWN))
}

fn high_goes_first(rt: HostRuntime, dpcs: &mut Dpcs<'_>) -> io::Result<()>
    requires objects { length dpcs.old.script.dpcs ≡ 3 }
    requires cpus { dpcs.old.script.cpus ≡ 2 }
{
    set_importance(dpcs, DpcNo(1), Importance::High);
    queue(dpcs, 5, OWN, DpcNo(0));
    queue(dpcs, 6, OWN, DpcNo(1));
    write_begun(rt, begin(dpcs, 7))?;
    write_begun(rt, begin(dpcs, 8))?;
    write_begun(rt, begin(dpcs, 9))
}

/// What an insert of object 0, if it isn't queued, by processor 0 asks for.
fn ask(dpcs: &Dpcs<'_>) -> Option<u8>
    requires objects { length dpcs.now.script.dpcs ≡ 3 }
    requires cpus { dpcs.now.script.cpus ≡ 2 }
{
    if dpcs.is_queued(DpcNo(0)) {
        return None;
    }
    dpcs.ask(DpcNo(0), OWN)
}

fn an_idle_processor_is_asked(rt: HostRuntime, dpcs: &mut Dpcs<'_>) -> io::Result<()>
    requires objects { length dpcs.old.script.dpcs ≡ 3 }
    requires cpus { dpcs.old.script.cpus ≡ 2 }
{
    write_ask(rt, "own", ask(dpcs))?;
    set_target(dpcs, DpcNo(0));
    write_ask(rt, "other", ask(dpcs))?;
    dpcs.leave(3, OTHER, &What::Rest);
    write_ask(rt, "other after a rest", ask(dpcs))?;
    let switch = What::Switch {
        thread: ThreadNo(0),
        status: None,
    };
    dpcs.leave(4, OTHER, &switch);
    write_ask(rt, "other after a switch", ask(dpcs))
}

/// What an insert of the object that is declared threaded asks for, and whether it is then the
/// first of the threaded part.
fn threaded_insert(dpcs: &mut Dpcs<'_>) -> (Option<u8>, bool)
    requires objects { length dpcs.old.script.dpcs ≡ 3 }
    requires cpus { dpcs.old.script.cpus ≡ 2 }
{
    let d = DpcNo(2);
    if dpcs.is_queued(d) {
        return (None, false);
    }
    let class = dpcs.ask(d, OWN);
    queue(dpcs, 5, OWN, d);
    (class, dpcs.first(Part::Threaded, OWN) == Some((d, 5)))
}

/// What such an insert answers where threaded DPCs are on, off or not spoken of. None if the script
/// doesn't fit.
fn threaded_answer(
    alloc: Global,
    threaded: Option<bool>,
) -> Result<Option<(Option<u8>, bool)>, AllocError> {
    let script = script(alloc, threaded)?;
    threaded_answer_of(alloc, &script)
}

/// What such an insert answers with this script.
fn threaded_answer_of(
    alloc: Global,
    script: &Script,
) -> Result<Option<(Option<u8>, bool)>, AllocError>
    requires objects { length script.now.dpcs ≡ 3 }
    requires cpus { script.now.cpus ≡ 2 }
{
    if !script.fits() {
        return Ok(None);
    }
    let mut dpcs = Dpcs::new(alloc, script)?;
    Ok(Some(threaded_insert(&mut dpcs)))
}

fn write_threaded(rt: HostRuntime, threaded: Option<bool>) -> io::Result<()> {
    match threaded_answer(rt.alloc(), threaded)? {
        Some(answer) => println!(rt; "  {threaded:?}: {answer:?}"),
        None => println!(rt; "  no fit"),
    }
}

fn threaded_or_not(rt: HostRuntime) -> io::Result<()> {
    write_threaded(rt, None)?;
    write_threaded(rt, Some(true))?;
    write_threaded(rt, Some(false))
}
