//! What is replied with a run that a text shows.
ghost use Rattle.std.specs.Prelude.{◌≡◌, IfOk};
ghost use Rattle.nt_friendly.specs.Text.{strict_text};
ghost use Rattle.nt_lab.specs.Replies.{text_of};
ghost use Rattle.nt_lab_words.specs.Words.{IsHow};
ghost use Rattle.nt_left.specs.Lines.{left_text};
ghost use Rattle.nt_log.specs.Schedules.{schedule_of, schedule_text};
ghost use Rattle.nt_bench.specs.Friendly.{IsFriendly};
ghost use Rattle.nt_bench.specs.Running.{IsAnyRun, IsRunReply, IsShownReply, IsTextOf, left_in};

use crate::friendly::Friendly;
use crate::reply::made;
use crate::unshown::{turn_words, unshown};
use nt_ask::Status;
use nt_draw::{Span, draw, draw_text};
use nt_lab::{Reply, no_memory};
use nt_lab_words::How;
use nt_left::{left, print_left};
use nt_log::put_schedule_of;
use nt_orders::Went;
use nt_shown::{ShownRun, shown_run};
use nt_text::put_digits;
use nt_view::view;
use nt_why::{Thing, print_reasons, why};
use std::alloc::{AllocError, Global};

/// What is written of a run.
#[derive(Clone, Copy, PartialEq, Eq, Debug)]
pub(crate) enum Shape {
    /// Its report, for people.
    Report,
    /// Its schedule.
    Schedule,
    /// What is left at its end.
    Left,
    /// A picture of it.
    Picture(Span),
    /// The same as text, for a terminal.
    Lines(Span),
    /// Why a thing has not run after so many events.
    Reasons { thing: Thing, after: u32 },
}

/// The schedule of a run.
fn schedule_in(alloc: Global, run: &ShownRun) -> Result<Vec<u8>, AllocError>
    requires { IsAnyRun run.now }
    ensures { IfOk result (λ text. text.items ≡
        schedule_text run.now.input (schedule_of run.now.gone.history)) }
{
    let mut out = Vec::new(alloc);
    put_schedule_of(&mut out, &run.input, &run.gone.history)?;
    Ok(out)
}

/// Adds how many turns of a schedule the run begins with, where one of them was refused.
fn put_went(out: &mut Vec<u8>, went: Went) -> Result<(), AllocError> {
    if let Went::RefusedAt { at, kind } = went {
        out.extend_from_slice(b"turn ")?;
        put_digits(out, u64::from(at))?;
        out.extend_from_slice(b" of the schedule was refused: ")?;
        out.extend_from_slice(turn_words(kind).as_bytes())?;
        out.extend_from_slice(b"; from there on the run goes on by the robin rule\n")?;
    }
    Ok(())
}

/// The report of a run for people.
fn report_in(alloc: Global, run: &ShownRun) -> Result<Vec<u8>, AllocError>
    requires { IsAnyRun run.now }
{
    let mut out = view(alloc, &run.input, &run.gone.history)?;
    put_went(&mut out, run.gone.went)?;
    Ok(out)
}

/// What is left at the end of a run.
fn left_in(alloc: Global, run: &ShownRun) -> Result<Vec<u8>, AllocError>
    requires { IsAnyRun run.now }
    ensures { IfOk result (λ text. text.items ≡ left_text run.now.input (left_in run.now)) }
{
    let left = left(alloc, &run.input.script, &run.gone.history)?;
    print_left(alloc, &run.input, left.as_slice())
}

/// Why a thing has not run after so many events of a run.
fn reasons_in(
    alloc: Global,
    run: &ShownRun,
    thing: &Thing,
    after: u32,
) -> Result<Vec<u8>, AllocError>
    requires { IsAnyRun run.now }
{
    let reasons = why(alloc, &run.input.script, &run.gone.history, after, *thing)?;
    print_reasons(alloc, &run.input, *thing, reasons.as_slice())
}

/// What is written of a run in this shape.
fn text_in(alloc: Global, run: &ShownRun, shape: Shape) -> Result<Vec<u8>, AllocError>
    requires { IsAnyRun run.now }
    ensures { IfOk result (λ text. IsTextOf shape run.now text.items) }
{
    match shape {
        Shape::Report => report_in(alloc, run),
        Shape::Schedule => schedule_in(alloc, run),
        Shape::Left => left_in(alloc, run),
        Shape::Picture(span) => draw(alloc, &run.input, &run.gone.history, span),
        Shape::Lines(span) => draw_text(alloc, &run.input, &run.gone.history, span),
        Shape::Reasons { thing, after } => reasons_in(alloc, run, &thing, after),
    }
}

/// What is replied with a run.
pub(crate) fn shown_as(alloc: Global, run: &ShownRun, shape: Shape) -> Reply
    requires { IsAnyRun run.now }
    ensures { IsRunReply shape run.now result.status (text_of result.text) }
{
    match text_in(alloc, run, shape) {
        Ok(text) => made(Status::Ok, text),
        Err(_) => no_memory(),
    }
}

/// What is replied of the run that a friendly text shows.
pub(crate) fn run_in(alloc: Global, how: How, shape: Shape, friendly: &Friendly<'_>) -> Reply
    requires friendly { IsFriendly friendly.now }
    requires how { IsHow how }
    ensures { IsShownReply how shape friendly.now result.status (text_of result.text) }
{
    match shown_run(alloc, friendly.tidied.text.as_slice(), how) {
        Ok(run) => {
            let reply = shown_as(alloc, &run, shape);
            drop(run);
            reply
        }
        Err(refusal) => unshown(alloc, friendly, refusal),
    }
}
