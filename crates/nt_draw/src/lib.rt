//! Pictures of runs: a history as an SVG picture, or as lines for a terminal.
//!
//! [`draw`] gives a picture with a lane for each processor: a column is an event, the height of a
//! box is a level, and a box is a frame, from its beginning to its end. [`draw_text`] gives a line
//! for each event and a column for each processor. Both have the words of the run's report, and end
//! with its lines of what is left: `cut`, `spins` and `waits`. Their forms are this project's own
//! (profile).
//!
//! A picture is made in three steps: the frames that are open are followed from event to event
//! (`frames`), what stands in the picture is written down as data (`scene`), and that is written as
//! elements (`picture`) by a writer that closes what it opens and escapes what it writes (`tags`).
#![tactic(auto)]

ghost use Rattle.std.specs.Prelude.{◌≡◌, IfOk, true};
ghost use Rattle.nt_event.specs.Fitting.{events_fit};
ghost use Rattle.nt_script.specs.Sound.{IsSound};
ghost use Rattle.nt_draw.specs.Tags.{IsDocument};

mod frames;
mod laws;
mod layout;
mod listing;
mod picture;
mod scene;
mod shapes;
mod span;
mod tags;
mod texts;

use crate::listing::listing_of;
use crate::picture::picture_of;
use crate::scene::{Run, scene_of};
use crate::span::shown_cpus;
use crate::texts::Texts;
pub use laws::texts_hold_no_tags;
use nt_event::CpuNo;
use nt_history::History;
use nt_print::report;
use nt_script::Input;
pub use span::Span;
use std::alloc::{AllocError, Global};

/// What is drawn: an input, its history and the span of events.
#[derive(Clone, Copy)]
struct Subject<'a> {
    input: &'a Input,
    history: &'a History,
    span: Span,
}

impl<'a> Subject<'a> {
    /// The run, with these processors.
    fn run(&self, shown: &'a [CpuNo]) -> Run<'a> {
        Run {
            script: &self.input.script,
            events: self.history.lend(),
            span: self.span,
            shown,
        }
    }
}

/// The picture with these texts and processors.
fn draw_shown(
    alloc: Global,
    subject: &Subject,
    texts: &Texts,
    shown: &[CpuNo],
) -> Result<Vec<u8>, AllocError>
    ensures { IfOk result (λ out. IsDocument out.items) }
{
    let run = subject.run(shown);
    let scene = scene_of(alloc, &run, texts)?;
    picture_of(alloc, &run, &scene, texts.left.as_slice())
}

/// The processors that are shown of it.
fn shown_of(alloc: Global, subject: &Subject) -> Result<Vec<CpuNo>, AllocError> {
    shown_cpus(
        alloc,
        subject.input.script.cpus,
        &subject.history.lend(),
        subject.span,
    )
}

/// The picture with these texts.
fn draw_texts(alloc: Global, subject: &Subject, texts: &Texts) -> Result<Vec<u8>, AllocError>
    ensures { IfOk result (λ out. IsDocument out.items) }
{
    let shown = shown_of(alloc, subject)?;
    draw_shown(alloc, subject, texts, shown.as_slice())
}

/// The picture with the words of this report.
fn draw_report(alloc: Global, subject: &Subject, report: &[u8]) -> Result<Vec<u8>, AllocError>
    ensures { IfOk result (λ out. IsDocument out.items) }
{
    let mut texts = Texts::new(alloc);
    texts.read(report, &subject.history.lend())?;
    draw_texts(alloc, subject, &texts)
}

/// The picture of a span of a history, as SVG. An error is want of memory.
///
/// The events of the history name things of the input's script. Of up to four processors each has a
/// lane, of more those that have an event in the span. What is not in the span is left out; arcs
/// that come from before it begin at the left side.
pub fn draw(
    alloc: Global,
    input: &Input,
    history: &History,
    span: Span,
) -> Result<Vec<u8>, AllocError>
    requires sound { IsSound input.now }
    requires fit { events_fit input.now.script history.now.events ≡ true }
    ensures { IfOk result (λ out. IsDocument out.items) }
{
    let text = report(alloc, input, history)?;
    let subject = Subject {
        input,
        history,
        span,
    };
    draw_report(alloc, &subject, text.as_slice())
}

/// The lines with these texts and processors.
fn list_shown(
    alloc: Global,
    subject: &Subject,
    texts: &Texts,
    shown: &[CpuNo],
) -> Result<Vec<u8>, AllocError> {
    let run = subject.run(shown);
    listing_of(alloc, &run, texts)
}

/// The lines with these texts.
fn list_texts(alloc: Global, subject: &Subject, texts: &Texts) -> Result<Vec<u8>, AllocError> {
    let shown = shown_of(alloc, subject)?;
    list_shown(alloc, subject, texts, shown.as_slice())
}

/// The lines with the words of this report.
fn list_report(alloc: Global, subject: &Subject, report: &[u8]) -> Result<Vec<u8>, AllocError> {
    let mut texts = Texts::new(alloc);
    texts.read(report, &subject.history.lend())?;
    list_texts(alloc, subject, &texts)
}

/// A span of a history as lines for a terminal: one for each event, with a column for each
/// processor. An error is want of memory.
///
/// The events of the history name things of the input's script. Processors are shown as by
/// [`draw`]. A line has at most 100 characters where at most four are; what has no room in its
/// column is cut, and `~` says so.
pub fn draw_text(
    alloc: Global,
    input: &Input,
    history: &History,
    span: Span,
) -> Result<Vec<u8>, AllocError>
    requires sound { IsSound input.now }
    requires fit { events_fit input.now.script history.now.events ≡ true }
{
    let text = report(alloc, input, history)?;
    let subject = Subject {
        input,
        history,
        span,
    };
    list_report(alloc, &subject, text.as_slice())
}
