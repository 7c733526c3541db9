//! What is answered to a schedule that is to be shrunk.
ghost use Rattle.std.specs.Prelude.{ℕ, ◌*◌, ◌≡◌, ◌≤◌, List, Some, true};
ghost use Rattle.nt_log.specs.Schedules.{turns_fit};
ghost use Rattle.nt_script.specs.Sound.{IsSound};
ghost use Rattle.nt_top.specs.Answer.{IsScheduled, text_of};
ghost use Rattle.nt_top.specs.Outcome.{IsDone};
ghost use Rattle.nt_top.specs.Shrunk.{goal_of};
ghost use Rattle.nt_top.specs.Tasks.{IsLimit};
ghost use Rattle.nt_top.specs.declared.task.Task.{Task};
ghost use Rattle.nt_top.specs.declared.task.Task.TheVariants as task;

use crate::answer::{Answer, Text, line, no_memory, turn_refused};
use crate::status::Status;
use nt_log::{Schedule, print_schedule};
use nt_script::{Input, Named, Names};
use nt_shrink::{Goal, ShrinkRefusal, shrink};
use nt_words::GoalName;
use std::alloc::Global;

/// The object that is to be delivered, by its name; None where no DPC or APC object has it.
fn goal_of(names: &Names, name: &GoalName) -> Option<Goal>
    ensures { result ≡ goal_of names.now name.now }
{
    match names.find(name.as_str())? {
        Named::Dpc(dpc) => Some(Goal::Dpc(dpc)),
        Named::Apc(apc) => Some(Goal::Apc(apc)),
        Named::Timer(_) | Named::Thread(_) | Named::Lock(_) | Named::Routine(_) => None,
    }
}

/// The text of a schedule.
fn scheduled(alloc: Global, input: &Input, schedule: &Schedule) -> Answer
    requires sound { IsSound input.now }
    requires fit { turns_fit input.now.script schedule.now.list ≡ true }
    ensures { IsScheduled input.now schedule.now result.status (text_of result.text) }
{
    match print_schedule(alloc, input, schedule) {
        Ok(text) => Answer {
            status: Status::Ok,
            text: Text::Made(text),
        },
        Err(_) => no_memory(),
    }
}

/// What is answered to a schedule that is to be shrunk for a goal.
fn shrunk_for(alloc: Global, input: &Input, schedule: &Schedule, goal: Goal) -> Answer
    requires sound { IsSound input.now }
    requires limit { IsLimit input.now schedule.now.turns }
    ensures { (name : List ℕ) → goal_of input.now.names name ≡ Some goal →
        IsDone (task.Shrink input.now schedule.now name) result.status (text_of result.text) }
{
    match shrink(alloc, &input.script, schedule.turns, &schedule.list, goal) {
        Ok(list) => {
            let short = Schedule {
                turns: schedule.turns,
                list,
            };
            scheduled(alloc, input, &short)
        }
        Err(ShrinkRefusal::TooMany) => line(Status::TooMany, "too many turns\n"),
        Err(ShrinkRefusal::Bad { at, kind }) => turn_refused(alloc, at, kind),
        Err(ShrinkRefusal::NotDelivered) => line(Status::NotDelivered, "not delivered\n"),
        Err(ShrinkRefusal::NoMemory) => no_memory(),
    }
}

/// What is answered to a schedule that is to be shrunk for the goal of a name.
pub(crate) fn shrunk(alloc: Global, input: &Input, schedule: &Schedule, name: &GoalName) -> Answer
    requires sound { IsSound input.now }
    requires limit { IsLimit input.now schedule.now.turns }
    ensures { IsDone (task.Shrink input.now schedule.now name.now)
        result.status (text_of result.text) }
{
    match goal_of(&input.names, name) {
        Some(goal) => shrunk_for(alloc, input, schedule, goal),
        None => line(Status::NoGoal, "no goal\n"),
    }
}
