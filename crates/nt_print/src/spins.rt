//! The processors that spin at the end: for each the last call of `acquire` with reply spin, and
//! their lines.
ghost use Rattle.std.specs.Prelude.{◌≡◌, ◌++◌, ◌<◌, ◌==◌, ◌||◌, ◌∷◌, [], IfSome, None, OnOk};
ghost use Rattle.std.specs.Prelude.{get_or, if◌then◌else◌, true};
ghost use Rattle.nt_event.specs.Fitting.{events_fit};
ghost use Rattle.nt_event.specs.Script.{has_lock};
ghost use Rattle.nt_script.specs.Sound.{IsSound};
ghost use Rattle.nt_text.specs.Lines.{row_text, rows_text, spaced};
ghost use Rattle.nt_line.specs.NameLists.{show_lock};
ghost use Rattle.nt_print.specs.Report.{show_processor, spin_left, spin_of, spin_row, spin_rows};
ghost use Rattle.nt_print.specs.Report.{used};
ghost use Rattle.nt_print.specs.Tally.{TalliesAll, rests_by};

use crate::fields::put_used;
use crate::tally::Tally;
use nt_event::LockNo;
use nt_history::History;
use nt_script::Input;
use nt_text::{put_field, put_processor};
use std::alloc::{AllocError, Global};
use std::marker::Model;

/// A call of `acquire` with reply spin.
#[derive(Clone, Copy)]
pub struct Spun {
    /// The number of its event.
    pub number: u64,
    pub lock: LockNo,
}

/// For each place below a count, the last such call, where there is one. Contracts see the list of
/// them.
#[derive(Drop)]
pub(crate) struct Spins {
    spins: Vec<Option<Spun>>,
}

impl Model for Spins {
    ghost use Rattle.std.specs.Prelude.{List, Option};
    ghost use Rattle.nt_print.specs.declared.spins.Spun.{Spun};

    ghost Value = { List (Option Spun) };

    ghost view = { λ a. a.spins.items };
}

impl Spins {
    ghost use Rattle.std.specs.Prelude.{◌≡◌, IfOk, None, Some, get_or, replicate, slice_set};

    /// So many places, each without one.
    pub(crate) fn new(alloc: Global, count: usize) -> Result<Spins, AllocError>
        ensures { IfOk result (λ spins. spins ≡ replicate count None) }
    {
        Ok(Spins {
            spins: vec![in alloc; None; count]?,
        })
    }

    /// The last one at this place.
    pub(crate) fn at(&self, place: usize) -> Option<Spun>
        ensures { result ≡ get_or self.now place None }
    {
        if place < self.spins.len() {
            self.spins[place]
        } else {
            None
        }
    }

    /// Puts one at this place, where there is one.
    pub(crate) fn set(&mut self, place: usize, spin: Spun)
        ensures { self.new ≡ slice_set self.old place (Some spin) }
    {
        if place < self.spins.len() {
            self.spins[place] = Some(spin);
        }
    }
}

/// Whether a processor is cut, or its last event is a Rest, by the tally of the history's events.
fn is_cut_or_rests(history: &History, tally: &Tally, cpu: usize) -> bool
    ensures { result
        ≡ ((get_or tally.now.made cpu 0 == history.now.turns) || rests_by tally.now cpu) }
{
    tally.made.at(cpu) == history.turns() as usize || tally.rests(cpu)
}

/// A call, unless this is so.
fn unless(so: bool, spin: Option<Spun>) -> Option<Spun>
    ensures { result ≡ (if so then None else spin) }
{
    if so { None } else { spin }
}

/// The last call of `acquire` with reply spin by a processor that isn't cut and whose last event
/// isn't a Rest.
fn spin_left(input: &Input, history: &History, tally: &Tally, cpu: u8) -> Option<Spun>
    requires cpu { cpu < input.now.script.cpus }
    requires fit { events_fit input.now.script history.now.events ≡ true }
    requires tally { TalliesAll input.now.script history.now.events tally.now }
    ensures spin { result ≡ spin_left history.now cpu }
    ensures fits { IfSome result (λ x. has_lock input.now.script x.lock ≡ true) }
{
    let place = cpu as usize;
    unless(
        is_cut_or_rests(history, tally, place),
        tally.spins.at(place),
    )
}

fn put_spin_fields(out: &mut Vec<u8>, input: &Input, cpu: u8, spin: Spun) -> Result<(), AllocError>
    requires sound { IsSound input.now }
    requires fits { has_lock input.now.script spin.lock ≡ true }
    ensures { OnOk result (out.new.items ≡ out.old.items
        ++ spaced (show_processor cpu ∷ show_lock input.now.names spin.lock ∷ used spin.number)) }
{
    put_processor(out, u64::from(cpu))?;
    put_field(out, input.names.lock(spin.lock).as_bytes())?;
    put_used(out, spin.number)
}

/// Adds the line of a processor and its last such call.
fn put_spin(out: &mut Vec<u8>, input: &Input, cpu: u8, spin: Spun) -> Result<(), AllocError>
    requires sound { IsSound input.now }
    requires fits { has_lock input.now.script spin.lock ≡ true }
    ensures { OnOk result
        (out.new.items ≡ out.old.items ++ row_text (spin_row input.now.names cpu spin)) }
{
    out.extend_from_slice(b"spins")?;
    put_spin_fields(out, input, cpu, spin)?;
    out.push(b'\n')?;
    Ok(())
}

/// Adds the line of a processor, where it may spin at the end.
fn put_spin_of(
    out: &mut Vec<u8>,
    input: &Input,
    history: &History,
    tally: &Tally,
    cpu: u8,
) -> Result<(), AllocError>
    requires sound { IsSound input.now }
    requires cpu { cpu < input.now.script.cpus }
    requires fit { events_fit input.now.script history.now.events ≡ true }
    requires tally { TalliesAll input.now.script history.now.events tally.now }
    ensures { OnOk result (out.new.items
        ≡ out.old.items ++ rows_text (spin_of input.now.names cpu (spin_left history.now cpu))) }
{
    match spin_left(input, history, tally, cpu) {
        Some(spin) => put_spin(out, input, cpu, spin),
        None => Ok(()),
    }
}

/// Adds a line for each processor that isn't cut, whose last event isn't a Rest, and that has a
/// call of `acquire` with reply spin, where this is the tally of the history's events.
pub(crate) fn put_spins(
    out: &mut Vec<u8>,
    input: &Input,
    history: &History,
    tally: &Tally,
) -> Result<(), AllocError>
    requires sound { IsSound input.now }
    requires fit { events_fit input.now.script history.now.events ≡ true }
    requires tally { TalliesAll input.now.script history.now.events tally.now }
    ensures { OnOk result (out.new.items ≡ out.old.items
        ++ rows_text (spin_rows input.now.names history.now 0 input.now.script.cpus)) }
{
    for cpu in 0..input.script.cpus {
        put_spin_of(out, input, history, tally, cpu)?;
    }
    Ok(())
}
