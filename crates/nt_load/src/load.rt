//! The load of a seed.
ghost use Rattle.std.specs.Prelude.{◌≡◌, IfOk};
ghost use Rattle.nt_load.specs.Load.{load_input, load_script};
ghost use Rattle.nt_script.specs.Sound.{IsSound};

use crate::declarations::{apcs, dpcs, isrs, threads, timers};
use crate::names::load_names;
use crate::routines::draw_routines;
use nt_event::Script;
use nt_script::Input;
use std::alloc::{AllocError, Global};

/// The script of a seed's load, without the names of its things, which a run doesn't need. Two
/// calls with one seed give the same.
///
/// Errors: no memory is left.
pub fn draw_script(alloc: Global, seed: u32) -> Result<Script, AllocError>
    ensures script { IfOk result (λ script. script ≡ load_script seed) }
    ensures sound { IfOk result (λ script. IsSound (load_input seed)) }
{
    Ok(Script {
        cpus: 4,
        depth: None,
        threaded: None,
        isrs: isrs(alloc)?,
        dpcs: dpcs(alloc)?,
        timers: timers(alloc)?,
        threads: threads(alloc)?,
        apcs: apcs(alloc)?,
        routines: draw_routines(alloc, seed)?,
        locks: 0,
    })
}

/// The load of a seed: its script and the names of its things. Two calls with one seed give the
/// same.
///
/// Errors: no memory is left.
pub fn load_script(alloc: Global, seed: u32) -> Result<Input, AllocError>
    ensures input { IfOk result (λ input. input ≡ load_input seed) }
    ensures sound { IfOk result IsSound }
{
    Ok(Input {
        version: 1,
        script: draw_script(alloc, seed)?,
        names: load_names(alloc)?,
    })
}
