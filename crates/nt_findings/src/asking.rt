//! What is said of all expectations.
ghost use Rattle.std.specs.Prelude.{◌*◌, ◌+◌, ◌≡◌, ◌≤◌, All, IfOk, IsTrue, length, not, true};
ghost use Rattle.nt_event.specs.Script.{fits};
ghost use Rattle.nt_expect.specs.declared.expectations.Expectation.TheVariants.{AlwaysEnds};
ghost use Rattle.nt_expect.specs.Expectations.{expectations_fit};
ghost use Rattle.nt_findings.specs.Known.{AreKnown, HoldTheOthers};
ghost use Rattle.nt_findings.specs.Questions.{IsQuestion};
ghost use Rattle.nt_findings.specs.Spoken.{IsSpoken, with_events as all_with};
ghost use Rattle.nt_findings.specs.Verdicts.{AreSaid, IsAnswer, IsSaid};

use crate::answering::{say_without, verdicts_of};
use crate::question::{Finished, Question};
use crate::spoken::{Spoken, spoken_of, with_events};
use crate::unknown::none_known;
use nt_ask::{Answer, Verdict};
use nt_event::Script;
use nt_event::limits::{EVENTS, TURNS};
use nt_expect::Expectation;
use std::alloc::{AllocError, Global};

/// What is said of these expectations, by what is known of them and, behind them, of the events
/// that they speak of.
fn said_of(
    alloc: Global,
    script: &Script,
    expectations: &[Expectation],
    spoken: &[Spoken],
    fails: &[Option<u32>],
    finished: &Finished,
) -> Result<Vec<Verdict>, AllocError>
    requires spoken { All (IsSpoken expectations.now) spoken.now }
    requires known { AreKnown script.now (all_with expectations.now spoken.now) fails.now }
    requires holds { HoldTheOthers script.now finished.now.is_whole
        (all_with expectations.now spoken.now) fails.now }
    requires ends { IsSaid script.now (not finished.now.is_whole) AlwaysEnds finished.now.ends }
    ensures { IfOk result (λ vs.
        AreSaid script.now (not finished.now.is_whole) expectations.now vs.items) }
{
    let _script = script;
    let whole = finished.is_whole;
    let mut verdicts = verdicts_of(alloc, expectations, fails, whole, &finished.ends)?;
    say_without(&mut verdicts, spoken, fails, expectations.len());
    Ok(verdicts)
}

impl<'a> Question<'a> {
    /// What is said of these expectations, which are asked, and behind them the events that they
    /// speak of.
    fn answer(
        &self,
        alloc: Global,
        expectations: &[Expectation],
        spoken: &[Spoken],
    ) -> Result<Answer, AllocError>
        requires question { IsQuestion self.now }
        requires spoken { All (IsSpoken expectations.now) spoken.now }
        requires all { self.now.expectations.now ≡ all_with expectations.now spoken.now }
        ensures { IfOk result (IsAnswer self.now.script.now self.now.limit self.now.most
            expectations.now) }
    {
        let mut fails = none_known(alloc, self.expectations.len())?;
        let finished = self.settle(alloc, &mut fails, None)?;
        let script = self.script;
        let known = fails.as_slice();
        Ok(Answer {
            states: finished.states,
            edges: finished.edges,
            cut: finished.cut,
            verdicts: said_of(alloc, script, expectations, spoken, known, &finished)?,
        })
    }
}

/// What is said of these expectations of the script's runs. Each search finds at most so many
/// states; the numbers of states and edges are those of the last one, of all states, and so is why
/// it was cut.
///
/// The script and the expectations fit. On the way to a state each processor makes fewer events
/// than `limit`, which is 1 to 20,000, and at most 160,000 in all processors together. An error is
/// want of memory; where it is wanting in a search, that search is cut.
pub fn ask(
    alloc: Global,
    script: &Script,
    expectations: &[Expectation],
    limit: u32,
    most: u32,
) -> Result<Answer, AllocError>
    requires fit { IsTrue (fits script.now) }
    requires named { expectations_fit script.now expectations.now ≡ true }
    requires turns { (1 ≤ limit) × (limit ≤ TURNS) }
    requires all { script.now.cpus * limit ≤ EVENTS }
    requires most { 1 ≤ most }
    ensures { IfOk result (IsAnswer script.now limit most expectations.now) }
{
    let spoken = spoken_of(alloc, expectations)?;
    let all = with_events(alloc, expectations, spoken.as_slice())?;
    let question = Question {
        script,
        expectations: all.as_slice(),
        limit,
        most,
    };
    let answer = question.answer(alloc, expectations, spoken.as_slice())?;
    Ok(answer)
}
