//! What the small scripts begin with.
ghost use Rattle.std.specs.Prelude.{◌≡◌, IfOk, length};

use nt_event::{Items, Routine, Script};
use std::alloc::{AllocError, Global};

/// A script of two processors and one routine without commands, which declares nothing else.
pub fn empty_script(alloc: Global, threaded: Option<bool>) -> Result<Script, AllocError>
    ensures cpus { IfOk result (λ s. s.cpus ≡ 2) }
    ensures objects { IfOk result (λ s. length s.dpcs ≡ 0) }
    ensures threads { IfOk result (λ s. length s.threads ≡ 0) }
{
    let routine = Routine {
        commands: Items::new(alloc),
    };
    let routines = vec![in alloc; routine]?;
    Ok(Script {
        cpus: 2,
        depth: None,
        threaded,
        isrs: Items::new(alloc),
        dpcs: Items::new(alloc),
        timers: Items::new(alloc),
        threads: Items::new(alloc),
        apcs: Items::new(alloc),
        routines: Items::from_vec(routines),
        locks: 0,
    })
}
