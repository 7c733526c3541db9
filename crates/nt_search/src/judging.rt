//! Which expectations an event, or a quiet end, shows to fail.
ghost use Rattle.std.specs.List.{flat_map};
ghost use Rattle.std.specs.Prelude.{◌≡◌, ◌∷◌, List, length, true, ℕ};
ghost use Rattle.nt_event.specs.declared.events.Event.{Event as TheEvent};
ghost use Rattle.nt_event.specs.declared.scripts.Script.{Script as TheScript};
ghost use Rattle.nt_expect.specs.Expectations.{expectations_fit};
ghost use Rattle.nt_expect.specs.Meaning.{ShowsAt, ShowsAtEnd};
ghost use Rattle.nt_verdict.specs.Closed.{watched_by};
ghost use Rattle.nt_search.specs.Failures.{AreJudged};
ghost use Rattle.nt_search.specs.Machines.{Stands};

use crate::failures::Failure;
use crate::machine::Machine;
use nt_event::Event;
use nt_expect::Expectation;
use nt_shows::{shows_at, shows_at_end, watched_count};

/// Notes the failure of each expectation that the event shows to fail, where none was noted. The
/// one machine stands before the event, the other after it.
pub(crate) fn judge_event(
    expectations: &[Expectation],
    event: &Event,
    before: &Machine,
    after: &Machine,
    failure: Failure,
    failures: &mut Vec<Option<Failure>>,
)
    requires count { length failures.old.items ≡ length expectations.now }
    requires flags { length before.now.came.items
        ≡ length (flat_map watched_by expectations.now) }
    ensures count { length failures.new.items ≡ length failures.old.items }
    ensures judged { (s : TheScript) (limit : ℕ) (past : List TheEvent) →
        Stands s limit (flat_map watched_by expectations.now) past before.now →
        Stands s limit (flat_map watched_by expectations.now) (event.now ∷ past) after.now →
        AreJudged (λ x. ShowsAt s x event.now past) failure expectations.now failures.old.items
        failures.new.items }
{
    let mut place = 0;
    for index in 0..expectations.len() {
        let expectation = &expectations[index];
        let next = place + watched_count(expectation);
        if failures[index].is_none() {
            let came = &before.came[place..next];
            if shows_at(expectation, event, came, after.processors.cpus()) {
                failures[index] = Some(failure);
            }
        }
        place = next;
    }
}

/// Notes the failure of each expectation that the quiet end shows to fail, where none was noted.
pub(crate) fn judge_end(
    expectations: &[Expectation],
    machine: &Machine,
    failure: Failure,
    failures: &mut Vec<Option<Failure>>,
)
    requires fit { expectations_fit machine.now.script.now expectations.now ≡ true }
    requires floor { machine.now.floor.script ≡ machine.now.script.now }
    requires count { length failures.old.items ≡ length expectations.now }
    requires flags { length machine.now.came.items
        ≡ length (flat_map watched_by expectations.now) }
    ensures count { length failures.new.items ≡ length failures.old.items }
    ensures judged { (s : TheScript) (limit : ℕ) (past : List TheEvent) →
        Stands s limit (flat_map watched_by expectations.now) past machine.now →
        AreJudged (λ x. ShowsAtEnd s x past) failure expectations.now failures.old.items
        failures.new.items }
{
    let mut place = 0;
    for index in 0..expectations.len() {
        let expectation = &expectations[index];
        let next = place + watched_count(expectation);
        if failures[index].is_none() {
            let came = &machine.came[place..next];
            if shows_at_end(expectation, came, machine.script, &machine.floor) {
                failures[index] = Some(failure);
            }
        }
        place = next;
    }
}
