//! What is replied to `why`.
ghost use Rattle.std.specs.Prelude.{◌≡◌, ◌++◌, IfOk, None, OnOk};
ghost use Rattle.nt_friendly.specs.Text.{strict_text};
ghost use Rattle.nt_lab.specs.Replies.{text_of};
ghost use Rattle.nt_bench.specs.Friendly.{IsFriendly};
ghost use Rattle.nt_bench.specs.Reasons.{IsReasonsReply, IsWhyReply, name_text, no_thing_text};
ghost use Rattle.nt_bench.specs.Reasons.{thing_named};
ghost use Rattle.nt_bench.specs.Running.{IsAnyRun};

use crate::friendly::{Friendly, Named};
use crate::reply::made;
use crate::running::{Shape, shown_as};
use crate::unshown::unshown;
use nt_ask::Status;
use nt_event::limits::EVENTS;
use nt_lab::{Reply, no_memory};
use nt_lab_words::{ThingKind, USUAL};
use nt_script::Input;
use nt_shown::{ShownRun, shown_run};
use nt_why::{Thing, read_interrupt, read_thing};
use std::alloc::{AllocError, Global};

/// The thing of this kind that the words name, if the input's script has it.
fn thing_named(input: &Input, kind: ThingKind, named: Named<'_>) -> Option<Thing>
    ensures { result ≡ thing_named input.now kind named.entry }
{
    match kind {
        ThingKind::Dpc | ThingKind::Apc | ThingKind::Thread | ThingKind::Timer => {
            read_thing(input, kind.word().as_bytes(), named.thing.as_bytes())
        }
        ThingKind::Interrupt => {
            read_interrupt(input, named.thing.as_bytes(), named.level.as_bytes())
        }
    }
}

/// Adds the words that name a thing of this kind.
fn put_name(out: &mut Vec<u8>, kind: ThingKind, named: Named<'_>) -> Result<(), AllocError>
    ensures { OnOk result (out.new.items ≡ out.old.items ++ name_text kind named.entry) }
{
    out.extend_from_slice(named.thing.as_bytes())?;
    match kind {
        ThingKind::Dpc | ThingKind::Apc | ThingKind::Thread | ThingKind::Timer => Ok(()),
        ThingKind::Interrupt => {
            out.extend_from_slice(b" ")?;
            out.extend_from_slice(named.level.as_bytes())
        }
    }
}

/// Adds that the script does not have this thing.
fn put_no_thing(out: &mut Vec<u8>, kind: ThingKind, named: Named<'_>) -> Result<(), AllocError>
    ensures { OnOk result (out.new.items ≡ out.old.items ++ no_thing_text kind named.entry) }
{
    out.extend_from_slice(b"the script has no ")?;
    out.extend_from_slice(kind.word().as_bytes())?;
    out.extend_from_slice(b" ")?;
    put_name(out, kind, named)?;
    out.extend_from_slice(b"\n")?;
    Ok(())
}

/// The text on a thing that the script does not have.
fn no_thing_text(alloc: Global, kind: ThingKind, named: Named<'_>) -> Result<Vec<u8>, AllocError>
    ensures { IfOk result (λ text. text.items ≡ no_thing_text kind named.entry) }
{
    let mut out = Vec::new(alloc);
    put_no_thing(&mut out, kind, named)?;
    Ok(out)
}

/// What is replied where the script of a run has no such thing.
fn no_thing(alloc: Global, run: &ShownRun, kind: ThingKind, named: Named<'_>) -> Reply
    requires { thing_named run.now.input kind named ≡ None }
    ensures { IsReasonsReply run.now kind named.entry result.status (text_of result.text) }
{
    let _run = run;
    match no_thing_text(alloc, kind, named) {
        Ok(text) => made(Status::Refused, text),
        Err(_) => no_memory(),
    }
}

/// What is replied with a run.
fn reasons_of(
    alloc: Global,
    run: &ShownRun,
    kind: ThingKind,
    named: Named<'_>,
    after: Option<u32>,
) -> Reply
    requires { IsAnyRun run.now }
    ensures { IsReasonsReply run.now kind named.entry result.status (text_of result.text) }
{
    match thing_named(&run.input, kind, named) {
        Some(thing) => {
            let after = after.unwrap_or(EVENTS);
            shown_as(alloc, run, Shape::Reasons { thing, after })
        }
        None => no_thing(alloc, run, kind, named),
    }
}

/// What is replied to `why` of a friendly text.
pub(crate) fn why_in(
    alloc: Global,
    kind: ThingKind,
    after: Option<u32>,
    friendly: &Friendly<'_>,
) -> Reply
    requires { IsFriendly friendly.now }
    ensures { IsWhyReply kind friendly.now result.status (text_of result.text) }
{
    match shown_run(alloc, friendly.tidied.text.as_slice(), USUAL) {
        Ok(run) => {
            let reply = reasons_of(alloc, &run, kind, friendly.named, after);
            drop(run);
            reply
        }
        Err(refusal) => unshown(alloc, friendly, refusal),
    }
}
