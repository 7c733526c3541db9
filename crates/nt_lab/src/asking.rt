//! What is replied to what is asked.
ghost use Rattle.std.specs.Prelude.{◌≡◌, IfOk, IsTrue, true};
ghost use Rattle.nt_ask.specs.Words.{IsStates, IsWithin};
ghost use Rattle.nt_event.specs.Script.{fits};
ghost use Rattle.nt_expect.specs.Expectations.{expectations_fit};
ghost use Rattle.nt_findings.specs.Verdicts.{IsAnswer};
ghost use Rattle.nt_script.specs.Sound.{IsSound};
ghost use Rattle.nt_log.specs.Schedules.{turn_bound};
ghost use Rattle.nt_lab.specs.Outcome.{IsAskReply, IsReplied};
ghost use Rattle.nt_lab.specs.Replies.{text_of};

use crate::reply::{Reply, Text, no_memory};
use crate::witnessing::witnessed;
use nt_ask::{Answer, Asked, Form, print_answer, verdict_status};
use nt_findings::ask;
use nt_log::turn_bound;
use std::alloc::{AllocError, Global};

/// What searches up to so many states say of what is asked. On the way to a state each processor
/// makes as many events as a run of the script may have.
fn answer_of(alloc: Global, asked: &Asked, states: u32) -> Result<Answer, AllocError>
    requires fits { IsTrue (fits asked.now.input.script) }
    requires fit { expectations_fit asked.now.input.script asked.now.expectations ≡ true }
    requires states { IsStates states }
    ensures { IfOk result (IsAnswer asked.now.input.script
        (turn_bound asked.now.input.script.cpus) states asked.now.expectations) }
{
    let limit = turn_bound(asked.input.script.cpus);
    let expectations = asked.expectations.as_slice();
    let answer = ask(alloc, &asked.input.script, expectations, limit, states)?;
    Ok(answer)
}

/// What is replied with an answer.
fn printed(alloc: Global, asked: &Asked, states: u32, answer: &Answer) -> Reply
    requires sound { IsSound asked.now.input }
    requires fit { expectations_fit asked.now.input.script asked.now.expectations ≡ true }
    requires is { IsAnswer asked.now.input.script (turn_bound asked.now.input.script.cpus)
        states asked.now.expectations answer.now }
    ensures { IsAskReply asked.now states result.status (text_of result.text) }
{
    let _states = states;
    match print_answer(alloc, &asked.input, asked.expectations.as_slice(), answer) {
        Ok(text) => Reply {
            status: verdict_status(answer),
            text: Text::Made(text),
        },
        Err(_) => no_memory(),
    }
}

/// What is replied where all expectations are asked for.
fn answered(alloc: Global, asked: &Asked, states: u32) -> Reply
    requires sound { IsSound asked.now.input }
    requires fits { IsTrue (fits asked.now.input.script) }
    requires fit { expectations_fit asked.now.input.script asked.now.expectations ≡ true }
    requires states { IsStates states }
    ensures { IsAskReply asked.now states result.status (text_of result.text) }
{
    match answer_of(alloc, asked, states) {
        Ok(answer) => printed(alloc, asked, states, &answer),
        Err(_) => no_memory(),
    }
}

/// What is replied to what is asked, by the form of the words.
///
/// For `ask` a line is written for each expectation: `holds` only where it fails in no run, under
/// any schedule and any turn limit, with an event it speaks of that comes in none; `fails at` only
/// where it fails in some run; `unknown` only where not all states were searched, and then nothing
/// holds. Why not all were, the first line says: as many were found as may be, a processor made as
/// many events on the way to one as it may, or memory was wanting. The status is `Ok` where all
/// hold, `Fails` where one fails, and else `Unknown`.
///
/// For `witness` a schedule is written, with `Ok`: its replay is a settled run that begins with
/// turns that show that the expectation fails, and its text is read again as this schedule. Else a
/// line: `NoExpectation` where there are fewer, `NoWitness` only where it fails in no run,
/// `TooManyTurns` only where a processor takes more turns to show it than a schedule may have,
/// `Unknown` where nothing is known.
///
/// Want of memory, `Memory`, may come at any place.
pub fn reply_to(alloc: Global, form: Form, asked: &Asked) -> Reply
    requires within { IsWithin form }
    requires sound { IsSound asked.now.input }
    requires fits { IsTrue (fits asked.now.input.script) }
    requires fit { expectations_fit asked.now.input.script asked.now.expectations ≡ true }
    ensures { IsReplied form asked.now result.status (text_of result.text) }
{
    match form {
        Form::Ask { states } => answered(alloc, asked, states),
        Form::Witness { number, states } => witnessed(alloc, asked, number, states),
    }
}
