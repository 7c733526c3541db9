//! What processors were asked for and have not noticed, as a machine keeps it.
ghost use Rattle.std.specs.Prelude.{◌≡◌, ◌<◌, IfOk, List, length};
ghost use Rattle.nt_event.specs.declared.events.Event.{Event};
ghost use Rattle.nt_event.specs.Lanes.{lane_count};
ghost use Rattle.nt_floor.specs.Views.{HasWord};
ghost use Rattle.nt_plain.specs.States.{view_of};
ghost use Rattle.nt_cpus.specs.Following.{AreAfter, AreSound};
ghost use Rattle.nt_shade_asks.specs.Follows.{IsAsked, IsOf};
ghost use Rattle.nt_shade.specs.Asks.{IsRead, all_told, marked_above};

use nt_cpu::Cpu;
use nt_cpus::Processors;
use nt_event::{CpuNo, class};
use nt_plain::PlainFloor;
use nt_shade_asks::{ClassAsks, Unnoticed};
use nt_states::LaneAnswers;
use std::alloc::{AllocError, Global};

/// The values above this one by which the processor was asked for the class, in rising order.
fn values_above(
    alloc: Global,
    floor: &PlainFloor,
    cpu: CpuNo,
    class: u8,
    seen: u64,
) -> Result<Vec<u64>, AllocError>
    requires { HasWord (view_of floor.now) cpu class }
    ensures { IfOk result (λ v. v.items ≡ marked_above floor.now cpu class seen) }
{
    let mut values = Vec::new(alloc);
    for number in seen..floor.asked(cpu, class) {
        if floor.asks(number, cpu, class) {
            values.push(number + 1)?;
        }
    }
    Ok(values)
}

/// What each lane tells of the class of the processor, by the lane's number.
fn told_of(alloc: Global, floor: &PlainFloor, cpu: CpuNo, class: u8) -> Result<Vec<u64>, AllocError>
    requires { HasWord (view_of floor.now) cpu class }
    ensures { IfOk result (λ v. v.items ≡ all_told floor.now cpu class) }
{
    let count = floor.states().script().lane_count();
    let mut told = Vec::with_capacity(alloc, count)?;
    for number in 0..count {
        told.push(floor.told(number, cpu, class))?;
    }
    Ok(told)
}

/// What each lane tells of the class of the processor, where any value is ahead; nothing else needs
/// it.
fn told_where(
    alloc: Global,
    floor: &PlainFloor,
    cpu: CpuNo,
    class: u8,
    ahead: &[u64],
) -> Result<Vec<u64>, AllocError>
    requires { HasWord (view_of floor.now) cpu class }
    ensures { IfOk result (λ v. 0 < length ahead.now → v.items ≡ all_told floor.now cpu class) }
{
    if ahead.is_empty() {
        return Ok(Vec::new(alloc));
    }
    told_of(alloc, floor, cpu, class)
}

/// What is kept of a class of the processor of this number.
fn class_of(
    alloc: Global,
    cpu: &Cpu,
    floor: &PlainFloor,
    number: CpuNo,
    class: u8,
) -> Result<ClassAsks, AllocError>
    requires word { HasWord (view_of floor.now) number class }
    requires seen { length cpu.now.own.seen ≡ 16 }
    ensures { IfOk result (IsRead cpu.now.own floor.now number class) }
{
    let seen = cpu.seen().value[usize::from(class)];
    let ahead = values_above(alloc, floor, number, class, seen)?;
    let told = told_where(alloc, floor, number, class, ahead.as_slice())?;
    Ok(ClassAsks {
        cpu: number,
        class,
        seen,
        served: cpu.served().value[usize::from(class)],
        ahead,
        told,
    })
}

/// What the processors were asked for and have not noticed, where they and the floor stand after
/// some history.
pub fn unnoticed_of(
    alloc: Global,
    processors: &Processors,
    floor: &PlainFloor,
) -> Result<Unnoticed, AllocError>
    requires { AreSound processors.now floor.now.script (view_of floor.now) }
    ensures of { IfOk result (IsOf processors.now.script) }
    ensures asked { IfOk result (λ x. (past : List Event) →
        AreAfter past processors.now floor.now.script (view_of floor.now) →
        IsAsked processors.now.script past x) }
{
    let cpus = processors.cpus();
    let mut classes = Vec::with_capacity(alloc, cpus.len() * class::COUNT)?;
    for number in 0..cpus.len() {
        for class in 0..class::COUNT {
            let cpu = CpuNo(number as u8);
            classes.push(class_of(alloc, &cpus[number], floor, cpu, class as u8)?)?;
        }
    }
    Ok(Unnoticed { classes })
}
