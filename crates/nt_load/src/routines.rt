//! The routines of the load.
ghost use Rattle.std.specs.Prelude.{◌≡◌, ◌∷◌, IfOk, OnOk};
ghost use Rattle.nt_event.specs.Lists.{table};
ghost use Rattle.nt_load.specs.Commands.{begin, commands};
ghost use Rattle.nt_load.specs.Load.{busy_routine, idle_routine};

use crate::commands::add_command;
use crate::declarations::with_room;
use crate::draws::Draws;
use nt_event::{Items, Routine};
use std::alloc::{AllocError, Global};

/// How many commands the routine of a thread has.
const COMMANDS: u8 = 128;

/// Draws the commands of a routine.
fn draw_routine(alloc: Global, draws: &mut Draws) -> Result<Routine, AllocError>
    ensures commands { IfOk result (λ routine. routine.commands ≡ commands 128 draws.old.number) }
    ensures moved { OnOk result (draws.new.number ≡ begin 128 draws.old.number) }
{
    let mut drawn = Vec::with_capacity(alloc, COMMANDS as usize)?;
    for i in 0..COMMANDS {
        add_command(draws, &mut drawn);
    }
    Ok(Routine {
        commands: Items::from_vec(drawn),
    })
}

/// Draws the routines of the threads, behind the one without commands.
pub(crate) fn draw_routines(alloc: Global, seed: u32) -> Result<Items<Routine>, AllocError>
    ensures { IfOk result (λ routines. routines ≡ idle_routine ∷ table 32 (busy_routine seed)) }
{
    let mut draws = Draws::new(seed);
    let mut routines = with_room(alloc, 33)?;
    routines.push(Routine {
        commands: Items::new(alloc),
    })?;
    for r in 0..32u8 {
        routines.push(draw_routine(alloc, &mut draws)?)?;
    }
    Ok(routines)
}
