//! What is replied where a witness of an expectation is asked for.
ghost use Rattle.std.specs.Prelude.{◌≡◌, ◌≤◌, ◌<◌, [], IsTrue, List, length, true};
ghost use Rattle.nt_ask.specs.Words.{IsNumber, IsStates};
ghost use Rattle.nt_event.specs.declared.events.Event.{Event as TheEvent};
ghost use Rattle.nt_event.specs.Script.{fits};
ghost use Rattle.nt_expect.specs.Expectations.{expectations_fit};
ghost use Rattle.nt_findings.specs.Questions.{IsSought};
ghost use Rattle.nt_script.specs.Sound.{IsSound};
ghost use Rattle.nt_witness.specs.Leads.{Lead};
ghost use Rattle.nt_witness.specs.Witnesses.{IsWitness};
ghost use Rattle.nt_lab.specs.Outcome.{IsWitnessReply};
ghost use Rattle.nt_lab.specs.Replies.{text_of};
ghost use Rattle.nt_lab.specs.Witnesses.{Show, expected};

use crate::looks::read_looks;
use crate::reply::{Reply, Text, line, no_memory};
use nt_ask::{Asked, Status};
use nt_event::Turn;
use nt_findings::{Sought, seek};
use nt_log::{Schedule, print_schedule, turn_bound};
use nt_witness::witness;
use std::alloc::Global;

/// What is replied with a schedule.
fn scheduled(
    alloc: Global,
    asked: &Asked,
    number: u32,
    turns: &[Turn],
    schedule: &Schedule,
) -> Reply
    requires sound { IsSound asked.now.input }
    requires fits { IsTrue (fits asked.now.input.script) }
    requires show { Show asked.now.input.script (expected asked.now number) turns.now }
    requires lead { (h : List TheEvent) × Lead asked.now.input.script turns.now [] h ×
        IsWitness asked.now.input.script h schedule.now }
    requires number { number ≤ length asked.now.expectations }
    ensures { IsWitnessReply asked.now number result.status (text_of result.text) }
{
    let _number = number;
    let _turns = turns;
    read_looks(&schedule.list);
    match print_schedule(alloc, &asked.input, schedule) {
        Ok(text) => Reply {
            status: Status::Ok,
            text: Text::Made(text),
        },
        Err(_) => no_memory(),
    }
}

/// What is replied with turns that show that the expectation fails.
fn shown(alloc: Global, asked: &Asked, number: u32, turns: &[Turn], endless: bool) -> Reply
    requires sound { IsSound asked.now.input }
    requires fits { IsTrue (fits asked.now.input.script) }
    requires show { Show asked.now.input.script (expected asked.now number) turns.now }
    requires number { number ≤ length asked.now.expectations }
    ensures { IsWitnessReply asked.now number result.status (text_of result.text) }
{
    match witness(alloc, &asked.input.script, turns, endless) {
        Ok(Some(schedule)) => scheduled(alloc, asked, number, turns, &schedule),
        Ok(None) => line(Status::TooManyTurns, "too many turns\n"),
        Err(_) => no_memory(),
    }
}

/// What is replied with what was found of the expectation.
fn replied_by(alloc: Global, asked: &Asked, number: u32, sought: &Sought) -> Reply
    requires sound { IsSound asked.now.input }
    requires fits { IsTrue (fits asked.now.input.script) }
    requires sought { IsSought asked.now.input.script (expected asked.now number) sought.now }
    requires number { number ≤ length asked.now.expectations }
    ensures { IsWitnessReply asked.now number result.status (text_of result.text) }
{
    match sought {
        Sought::Fails(found) => shown(alloc, asked, number, found.turns.as_slice(), false),
        Sought::GoesOn(turns) => shown(alloc, asked, number, turns.as_slice(), true),
        Sought::Holds => line(Status::NoWitness, "no witness\n"),
        Sought::Unknown => line(Status::Unknown, "unknown\n"),
    }
}

/// What is replied where a witness of the expectation of this number is asked for. On the way to a
/// state each processor makes as many events as a run of the script may have.
pub(crate) fn witnessed(alloc: Global, asked: &Asked, number: u32, states: u32) -> Reply
    requires sound { IsSound asked.now.input }
    requires fits { IsTrue (fits asked.now.input.script) }
    requires fit { expectations_fit asked.now.input.script asked.now.expectations ≡ true }
    requires number { IsNumber number }
    requires states { IsStates states }
    ensures { IsWitnessReply asked.now number result.status (text_of result.text) }
{
    let expectations = asked.expectations.as_slice();
    let place = number as usize - 1;
    if expectations.len() <= place {
        return line(Status::NoExpectation, "no expectation\n");
    }
    let script = &asked.input.script;
    match seek(
        alloc,
        script,
        expectations,
        place,
        turn_bound(script.cpus),
        states,
    ) {
        Ok(sought) => replied_by(alloc, asked, number, &sought),
        Err(_) => no_memory(),
    }
}
