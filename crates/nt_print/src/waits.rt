//! The lines of the inserts that still wait at the end.
ghost use Rattle.std.specs.Prelude.{◌≡◌, ◌++◌, ◌<◌, ◌∷◌, [], true, OnOk, IfSome, map, option_map};
ghost use Rattle.std.specs.Prelude.{reverse, length};
ghost use Rattle.nt_text.specs.Lines.{row_text, rows_text};
ghost use Rattle.nt_event.specs.Fate.{inserted_by, waiting_inserts};
ghost use Rattle.nt_script.specs.Sound.{IsSound};
ghost use Rattle.nt_text.specs.Lines.{spaced};
ghost use Rattle.nt_event.specs.Fitting.{events_fit};
ghost use Rattle.nt_print.specs.Lent.{lent};
ghost use Rattle.nt_print.specs.Report.{thing_row, wait_fields, wait_row, wait_rows};
ghost use Rattle.nt_print.specs.Uses.{thing_of, inserted_of, inserted_at, thing_fits, waits_at};
ghost use Rattle.nt_print.specs.Tally.{TalliesAll};

use crate::inserts::{Insert, Object, inserted};
use crate::tally::Tally;
use nt_event::Script;
use nt_history::Briefs;
use nt_script::Input;
use nt_text::{put_field, put_number};
use std::alloc::AllocError;

fn put_object(out: &mut Vec<u8>, input: &Input, object: Object) -> Result<(), AllocError>
    requires sound { IsSound input.now }
    requires fits { thing_fits input.now.script (thing_of object) ≡ true }
    ensures { OnOk result
        (out.new.items ≡ out.old.items ++ spaced (thing_row input.now.names (thing_of object))) }
{
    match object {
        Object::Dpc(dpc) => {
            out.extend_from_slice(b" dpc")?;
            put_field(out, input.names.dpc(dpc).as_bytes())
        }
        Object::Apc(apc) => {
            out.extend_from_slice(b" apc")?;
            put_field(out, input.names.apc(apc).as_bytes())
        }
    }
}

fn put_wait_fields(out: &mut Vec<u8>, input: &Input, insert: Insert) -> Result<(), AllocError>
    requires sound { IsSound input.now }
    requires fits { thing_fits input.now.script (thing_of insert.object) ≡ true }
    ensures { OnOk result (out.new.items
        ≡ out.old.items ++ spaced (wait_fields input.now.names (inserted_of insert))) }
{
    put_number(out, insert.number)?;
    put_object(out, input, insert.object)
}

/// Adds the line of an insert that still waits.
fn put_wait(out: &mut Vec<u8>, input: &Input, insert: Insert) -> Result<(), AllocError>
    requires sound { IsSound input.now }
    requires fits { thing_fits input.now.script (thing_of insert.object) ≡ true }
    ensures { OnOk result (out.new.items
        ≡ out.old.items ++ row_text (wait_row input.now.names (inserted_of insert))) }
{
    out.extend_from_slice(b"waits")?;
    put_wait_fields(out, input, insert)?;
    out.push(b'\n')?;
    Ok(())
}

/// The object that the event of this number inserts.
fn inserted_at(script: &Script, events: &Briefs, number: usize) -> Option<Object>
    requires number { number < length events.now.briefs.now }
    requires fit { events_fit script.now (lent events.now) ≡ true }
    ensures inserts { option_map thing_of result ≡ inserted_at (lent events.now) number }
    ensures fits { IfSome result (λ x. thing_fits script.now (thing_of x) ≡ true) }
{
    inserted(&events.briefs[number].did)
}

/// The object that the event of this number inserts, where the insert still waits at the end.
fn waiting(script: &Script, events: &Briefs, tally: &Tally, number: usize) -> Option<Object>
    requires number { number < length events.now.briefs.now }
    requires fit { events_fit script.now (lent events.now) ≡ true }
    requires tally { TalliesAll script.now (lent events.now) tally.now }
    ensures waits { option_map thing_of result
        ≡ waits_at (reverse (lent events.now)) number (inserted_at (lent events.now) number) }
    ensures fits { IfSome result (λ x. thing_fits script.now (thing_of x) ≡ true) }
{
    match inserted_at(script, events, number) {
        Some(object) => if tally.waits(number, object) {
            Some(object)
        } else {
            None
        },
        None => None,
    }
}

/// Adds the line of the event of this number, where it is an insert that still waits.
fn put_wait_of(
    out: &mut Vec<u8>,
    input: &Input,
    events: &Briefs,
    tally: &Tally,
    number: usize,
) -> Result<(), AllocError>
    requires sound { IsSound input.now }
    requires fit { events_fit input.now.script (lent events.now) ≡ true }
    requires tally { TalliesAll input.now.script (lent events.now) tally.now }
    requires number { number < length events.now.briefs.now }
    ensures { OnOk result (out.new.items ≡ out.old.items ++ rows_text (map
        (wait_row input.now.names) (inserted_by number
        (waits_at (reverse (lent events.now)) number (inserted_at (lent events.now) number))))) }
{
    match waiting(&input.script, events, tally, number) {
        Some(object) => put_wait(
            out,
            input,
            Insert {
                number: number as u64,
                object,
            },
        ),
        None => Ok(()),
    }
}

/// Adds the lines of the inserts that still wait, by ascending number. No event is read but the
/// inserts that no event named.
pub(crate) fn put_waits(
    out: &mut Vec<u8>,
    input: &Input,
    events: &Briefs,
    tally: &Tally,
) -> Result<(), AllocError>
    requires sound { IsSound input.now }
    requires fit { events_fit input.now.script (lent events.now) ≡ true }
    requires tally { TalliesAll input.now.script (lent events.now) tally.now }
    ensures { OnOk result (out.new.items
        ≡ out.old.items ++ rows_text (wait_rows input.now.names (reverse (lent events.now)))) }
{
    let mut number = tally.unnamed.pass_clear(0);
    while number < events.briefs.len() {
        put_wait_of(out, input, events, tally, number)?;
        number = tally.unnamed.pass_clear(number + 1);
    }
    Ok(())
}

/// How many inserts still wait at the end.
pub(crate) fn count_waits(script: &Script, events: &Briefs, tally: &Tally) -> usize
    requires fit { events_fit script.now (lent events.now) ≡ true }
    requires tally { TalliesAll script.now (lent events.now) tally.now }
    ensures { result ≡ length (waiting_inserts (reverse (lent events.now))) }
{
    let mut count = 0;
    let mut number = tally.unnamed.pass_clear(0);
    while number < events.briefs.len() {
        if waiting(script, events, tally, number).is_some() {
            count += 1;
        }
        number = tally.unnamed.pass_clear(number + 1);
    }
    count
}
