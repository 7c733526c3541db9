//! What no clause says: that nothing else stands in the list. The turns are worked out by hand.
ghost use Rattle.std.specs.Prelude.{◌≡◌, ◌+◌, ◌*◌, ◌<◌, IfOk, IsTrue};
ghost use Rattle.nt_event.specs.Script.{fits};
ghost use Rattle.nt_shade_asks.specs.Follows.{HasRoom, IsOf, place_of};

use nt_ahead::turns_ahead;
use nt_event::{CpuNo, Items, Rises, Script, Turn, class};
use nt_shade_asks::{ClassAsks, Unnoticed};
use std::alloc::{AllocError, Global};

/// Two processors, and nothing else.
fn script(alloc: Global) -> Script {
    Script {
        cpus: 2,
        depth: None,
        threaded: None,
        isrs: Items::new(alloc),
        dpcs: Items::new(alloc),
        timers: Items::new(alloc),
        threads: Items::new(alloc),
        apcs: Items::new(alloc),
        routines: Items::new(alloc),
        locks: 0,
    }
}

/// The values by which the processor was asked for the class and which it has not noticed. Event 0
/// and event 1 asked processor 1 for interrupts among processors, event 2 for the clock.
fn values(alloc: Global, cpu: u8, class: u8) -> Result<Vec<u64>, AllocError> {
    if cpu == 1 && class == class::IPI {
        Ok(vec![in alloc; 1, 2]?)
    } else if cpu == 1 && class == class::CLOCK {
        Ok(vec![in alloc; 3]?)
    } else {
        Ok(Vec::new(alloc))
    }
}

/// What the processor was asked for of the class; no lane tells anything.
fn class_of(alloc: Global, script: &Script, cpu: u8, class: u8) -> Result<ClassAsks, AllocError>
    requires fits { IsTrue (fits script.now) }
    requires class { class < 16 }
    ensures place { IfOk result (λ x. place_of x ≡ cpu * 16 + class) }
    ensures room { IfOk result (HasRoom script.now) }
{
    let ahead = values(alloc, cpu, class)?;
    let told = vec![in alloc; 0u64; script.lane_count()]?;
    Ok(ClassAsks {
        cpu: CpuNo(cpu),
        class,
        seen: 0,
        served: 0,
        ahead,
        told,
    })
}

/// What all processors were asked for.
fn asks(alloc: Global, script: &Script) -> Result<Unnoticed, AllocError>
    requires { IsTrue (fits script.now) }
    ensures { IfOk result (IsOf script.now) }
{
    let mut classes = Vec::new(alloc);
    for cpu in 0..script.cpus {
        for class in 0..16u8 {
            classes.push(class_of(alloc, script, cpu, class)?)?;
        }
    }
    Ok(Unnoticed { classes })
}

/// The look of processor 1 that finds these values of the clock and of interrupts among processors.
fn look(clock: u64, ipi: u64) -> Turn {
    let mut rises = Rises { value: [0; 16] };
    rises.value[usize::from(class::CLOCK)] = clock;
    rises.value[usize::from(class::IPI)] = ipi;
    Turn::Look(CpuNo(1), rises)
}

/// Whether these are the plain turns and then a look for each choice of values.
fn is_each(turns: &[Turn]) -> bool {
    let wanted = [
        Turn::Next(CpuNo(0)),
        Turn::Next(CpuNo(1)),
        look(0, 1),
        look(0, 2),
        look(3, 0),
        look(3, 1),
        look(3, 2),
    ];
    turns == wanted.as_slice()
}

/// Whether just those are found of what the processors were asked for.
fn finds_each(alloc: Global, script: &Script, asks: &Unnoticed) -> Result<bool, AllocError>
    requires fits { IsTrue (fits script.now) }
    requires asks { IsOf script.now asks.now }
{
    let turns = turns_ahead(alloc, script, asks)?;
    Ok(is_each(turns.as_slice()))
}

/// Whether just those are found of the script.
fn tries_each(alloc: Global, script: &Script) -> Result<bool, AllocError> {
    if !script.fits() {
        return Ok(false);
    }
    let asks = asks(alloc, script)?;
    finds_each(alloc, script, &asks)
}

#[test]
fn each_choice_is_tried_once(rt: HostRuntime) -> Result<(), AllocError> {
    let script = script(rt.alloc());
    let found = tries_each(rt.alloc(), &script);
    drop(script);
    assert!(rt; found?);
    Ok(())
}
