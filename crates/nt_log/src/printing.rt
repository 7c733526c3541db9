//! The text of a schedule.
ghost use Rattle.std.specs.Prelude.{◌≡◌, ◌++◌, ◌∷◌, [], true, codes, length, map, IfOk, OnOk};
ghost use Rattle.nt_text.specs.Lines.{row_text, rows_text};
ghost use Rattle.nt_event.specs.Script.{has_thread};
ghost use Rattle.nt_event.specs.Step.{turn_of};
ghost use Rattle.nt_history.specs.Briefs.{event_in, events_in, one_rise};
ghost use Rattle.nt_line.specs.NameLists.{show_thread};
ghost use Rattle.nt_line.specs.Rows.{show_cpu};
ghost use Rattle.nt_script.specs.Sound.{IsSound};
ghost use Rattle.nt_text.specs.Lines.{spaced};
ghost use Rattle.nt_log.specs.Schedules.{turn_fits, turns_fit, rise_field, rises_row, turn_row};
ghost use Rattle.nt_log.specs.Schedules.{limit_row, done_row, schedule_of, schedule_text};

use crate::schedules::Schedule;
use nt_event::{CpuNo, Rises, ThreadNo, Turn};
use nt_history::{Brief, Briefs, Did, History, Noticed, Turns, no_turn};
use nt_script::Input;
use nt_text::{put_digits, put_field, put_number};
use std::alloc::{AllocError, Global};

/// Adds a class and the value that rises in it.
fn put_rise(out: &mut Vec<u8>, class: u64, value: u64) -> Result<(), AllocError>
    ensures { OnOk result (out.new.items ≡ out.old.items ++ spaced (rise_field class value ∷ [])) }
{
    put_number(out, class)?;
    out.push(b'=')?;
    put_digits(out, value)
}

/// Adds the values that rise.
fn put_rises(out: &mut Vec<u8>, values: &[u64]) -> Result<(), AllocError>
    ensures { OnOk result (out.new.items ≡ out.old.items ++ spaced (rises_row 0 values.now)) }
{
    for (class, value) in values.iter().enumerate() {
        if *value != 0 {
            put_rise(out, class as u64, *value)?;
        }
    }
    Ok(())
}

/// Adds the line of a turn that is neither a look nor a switch.
fn put_next(out: &mut Vec<u8>, cpu: CpuNo) -> Result<(), AllocError>
    ensures { OnOk result
        (out.new.items ≡ out.old.items ++ row_text (codes "next" ∷ show_cpu cpu ∷ [])) }
{
    // Most lines of a schedule are this one.
    if cpu.0 < 10 {
        return out.extend_from_slice(&[b'n', b'e', b'x', b't', b' ', b'0' + cpu.0, b'\n']);
    }
    if cpu.0 < 100 {
        let (tens, ones) = (b'0' + cpu.0 / 10, b'0' + cpu.0 % 10);
        return out.extend_from_slice(&[b'n', b'e', b'x', b't', b' ', tens, ones, b'\n']);
    }
    out.extend_from_slice(b"next")?;
    put_number(out, u64::from(cpu.0))?;
    out.push(b'\n')?;
    Ok(())
}

/// Adds a processor and the values that rise for it.
fn put_look_fields(out: &mut Vec<u8>, cpu: CpuNo, rises: &Rises) -> Result<(), AllocError>
    ensures { OnOk result
        (out.new.items ≡ out.old.items ++ spaced (show_cpu cpu ∷ rises_row 0 rises.now.value)) }
{
    put_number(out, u64::from(cpu.0))?;
    put_rises(out, &rises.value)
}

/// Adds the line of a look.
fn put_look(out: &mut Vec<u8>, cpu: CpuNo, rises: &Rises) -> Result<(), AllocError>
    ensures { OnOk result (out.new.items
        ≡ out.old.items ++ row_text (codes "look" ∷ show_cpu cpu ∷ rises_row 0 rises.now.value)) }
{
    out.extend_from_slice(b"look")?;
    put_look_fields(out, cpu, rises)?;
    out.push(b'\n')?;
    Ok(())
}

/// Adds the class and the value of a look in which one class alone rose, where it did.
fn put_one_rise(out: &mut Vec<u8>, class: u8, value: u64) -> Result<(), AllocError>
    ensures { OnOk result
        (out.new.items ≡ out.old.items ++ spaced (rises_row 0 (one_rise class value).value)) }
{
    if 16 <= class {
        return Ok(());
    }
    if value == 0 {
        return Ok(());
    }
    put_rise(out, u64::from(class), value)
}

/// Adds a processor and the value that alone rose for it.
fn put_one_look_fields(
    out: &mut Vec<u8>,
    cpu: CpuNo,
    class: u8,
    value: u64,
) -> Result<(), AllocError>
    ensures { OnOk result (out.new.items
        ≡ out.old.items ++ spaced (show_cpu cpu ∷ rises_row 0 (one_rise class value).value)) }
{
    put_number(out, u64::from(cpu.0))?;
    put_one_rise(out, class, value)
}

/// Adds the line of a look in which one class alone rose, as in most.
fn put_one_look(out: &mut Vec<u8>, cpu: CpuNo, class: u8, value: u64) -> Result<(), AllocError>
    ensures { OnOk result (out.new.items ≡ out.old.items
        ++ row_text (codes "look" ∷ show_cpu cpu ∷ rises_row 0 (one_rise class value).value)) }
{
    out.extend_from_slice(b"look")?;
    put_one_look_fields(out, cpu, class, value)?;
    out.push(b'\n')?;
    Ok(())
}

/// Adds a processor and the thread that it takes.
fn put_switch_fields(
    out: &mut Vec<u8>,
    input: &Input,
    cpu: CpuNo,
    thread: ThreadNo,
) -> Result<(), AllocError>
    requires sound { IsSound input.now }
    requires fits { has_thread input.now.script thread ≡ true }
    ensures { OnOk result (out.new.items
        ≡ out.old.items ++ spaced (show_cpu cpu ∷ show_thread input.now.names thread ∷ [])) }
{
    put_number(out, u64::from(cpu.0))?;
    put_field(out, input.names.thread(thread).as_bytes())
}

/// Adds the line of a switch.
fn put_switch(
    out: &mut Vec<u8>,
    input: &Input,
    cpu: CpuNo,
    thread: ThreadNo,
) -> Result<(), AllocError>
    requires sound { IsSound input.now }
    requires fits { has_thread input.now.script thread ≡ true }
    ensures { OnOk result (out.new.items ≡ out.old.items
        ++ row_text (codes "switch" ∷ show_cpu cpu ∷ show_thread input.now.names thread ∷ [])) }
{
    out.extend_from_slice(b"switch")?;
    put_switch_fields(out, input, cpu, thread)?;
    out.push(b'\n')?;
    Ok(())
}

/// Adds the line of a turn.
fn put_turn(out: &mut Vec<u8>, input: &Input, turn: &Turn) -> Result<(), AllocError>
    requires sound { IsSound input.now }
    requires fits { turn_fits input.now.script turn.now ≡ true }
    ensures { OnOk result
        (out.new.items ≡ out.old.items ++ row_text (turn_row input.now.names turn.now)) }
{
    match turn {
        Turn::Next(cpu) => put_next(out, *cpu),
        Turn::Look(cpu, rises) => put_look(out, *cpu, rises),
        Turn::Switch(cpu, thread) => put_switch(out, input, *cpu, *thread),
    }
}

/// Adds the line of the turn that makes the event of a brief, one of these.
fn put_turn_of(
    out: &mut Vec<u8>,
    input: &Input,
    events: &Briefs,
    event: &Brief,
) -> Result<(), AllocError>
    requires sound { IsSound input.now }
    requires fits { turn_fits input.now.script (turn_of (event_in events.now.rises.now event.now))
        ≡ true }
    ensures { OnOk result (out.new.items ≡ out.old.items ++ row_text
        (turn_row input.now.names (turn_of (event_in events.now.rises.now event.now)))) }
{
    match event.did {
        Did::Look {
            noticed: Noticed::One { class, value },
        } => put_one_look(out, event.cpu, class, value),
        Did::Look {
            noticed: Noticed::Several { .. },
        } => put_look(out, event.cpu, &events.values(event)),
        Did::Switch { thread, .. } => put_switch(out, input, event.cpu, thread),
        Did::Call { .. }
        | Did::Begin { .. }
        | Did::Normal { .. }
        | Did::End { .. }
        | Did::Expire { .. }
        | Did::Fire { .. }
        | Did::Clean { .. }
        | Did::Rewait { .. }
        | Did::Flush { .. }
        | Did::Gone { .. }
        | Did::Free { .. }
        | Did::Rest => put_next(out, event.cpu),
    }
}

fn put_turns(out: &mut Vec<u8>, input: &Input, turns: &Turns) -> Result<(), AllocError>
    requires sound { IsSound input.now }
    requires fit { turns_fit input.now.script turns.now ≡ true }
    ensures { OnOk result
        (out.new.items ≡ out.old.items ++ rows_text (map (turn_row input.now.names) turns.now)) }
{
    let mut walk = turns.walk();
    let mut turn = no_turn();
    while walk.next(&mut turn) {
        put_turn(out, input, &turn)?;
    }
    Ok(())
}

/// Adds the lines of the turns that make these events.
fn put_turns_of(out: &mut Vec<u8>, input: &Input, events: &Briefs) -> Result<(), AllocError>
    requires sound { IsSound input.now }
    requires fit { turns_fit input.now.script
        (map turn_of (events_in events.now.briefs.now events.now.rises.now))
        ≡ true }
    ensures { OnOk result (out.new.items ≡ out.old.items ++ rows_text (map
        (turn_row input.now.names)
        (map turn_of (events_in events.now.briefs.now events.now.rises.now)))) }
{
    for event in events.briefs {
        put_turn_of(out, input, events, event)?;
    }
    Ok(())
}

/// Adds the line of the turn limit.
fn put_limit(out: &mut Vec<u8>, turns: u32) -> Result<(), AllocError>
    ensures { OnOk result (out.new.items ≡ out.old.items ++ row_text (limit_row turns)) }
{
    out.extend_from_slice(b"schedule")?;
    put_number(out, u64::from(turns))?;
    out.push(b'\n')?;
    Ok(())
}

/// Adds the last line.
fn put_end(out: &mut Vec<u8>) -> Result<(), AllocError>
    ensures { OnOk result (out.new.items ≡ out.old.items ++ row_text done_row) }
{
    out.extend_from_slice(b"done\n")
}

/// Adds the text of a schedule to another text. An error is want of memory, and the text may then
/// have more at its end.
pub fn put_schedule(out: &mut Vec<u8>, input: &Input, schedule: &Schedule) -> Result<(), AllocError>
    requires sound { IsSound input.now }
    requires fit { turns_fit input.now.script schedule.now.list ≡ true }
    ensures { OnOk result (out.new.items ≡ out.old.items ++ schedule_text input.now schedule.now) }
{
    put_limit(out, schedule.turns)?;
    put_turns(out, input, &schedule.list)?;
    put_end(out)
}

/// Adds the text of a history's schedule to another text, turn by turn, without the schedule as a
/// value. An error is want of memory, and the text may then have more at its end.
pub fn put_schedule_of(
    out: &mut Vec<u8>,
    input: &Input,
    history: &History,
) -> Result<(), AllocError>
    requires sound { IsSound input.now }
    requires fit { turns_fit input.now.script (schedule_of history.now).list ≡ true }
    ensures { OnOk result
        (out.new.items ≡ out.old.items ++ schedule_text input.now (schedule_of history.now)) }
{
    put_limit(out, history.turns())?;
    put_turns_of(out, input, &history.lend())?;
    put_end(out)
}

/// The text of a schedule whose switches take threads of the input's script. An error is want of
/// memory.
pub fn print_schedule(
    alloc: Global,
    input: &Input,
    schedule: &Schedule,
) -> Result<Vec<u8>, AllocError>
    requires sound { IsSound input.now }
    requires fit { turns_fit input.now.script schedule.now.list ≡ true }
    ensures { IfOk result (λ text. text.items ≡ schedule_text input.now schedule.now) }
{
    let mut out = Vec::new(alloc);
    put_schedule(&mut out, input, schedule)?;
    Ok(out)
}
