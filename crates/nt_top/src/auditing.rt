//! What `audit` writes: for each work item of a run how many inserts were pending then.
ghost use Rattle.std.specs.Prelude.{◌≡◌, ◌≤◌, ◌++◌, IfOk, OnOk, length};
ghost use Rattle.std.specs.List.{flat_map};
ghost use Rattle.nt_event.specs.declared.limits.TheConstants.{EVENTS};
ghost use Rattle.nt_top.specs.Audited.{audit_line, audit_text, items_line, lines_of};
ghost use Rattle.nt_words.specs.Forms.{IsWorkers};

use nt_history::History;
use nt_outside::Gate;
use nt_text::put_digits;
use nt_work::{Audited, audit};
use std::alloc::{AllocError, Global};
use std::sync::Wait;
use std::thread::Threads;

/// Work items that wait in the queue, at most.
const ROOM: u32 = 64;

/// Adds the line of a work item.
fn put_audited(out: &mut Vec<u8>, audited: &Audited) -> Result<(), AllocError>
    ensures { OnOk result (out.new.items ≡ out.old.items ++ audit_line audited.now) }
{
    out.extend_from_slice(b"note ")?;
    put_digits(out, u64::from(audited.item.word))?;
    out.extend_from_slice(b" at ")?;
    put_digits(out, audited.item.event)?;
    out.extend_from_slice(b" waiting ")?;
    put_digits(out, u64::from(audited.waiting))?;
    out.push(b'\n')?;
    Ok(())
}

/// Adds the line of each work item.
fn put_audits(out: &mut Vec<u8>, audits: &[Audited]) -> Result<(), AllocError>
    ensures { OnOk result (out.new.items ≡ out.old.items ++ flat_map audit_line audits.now) }
{
    for audited in audits {
        put_audited(out, audited)?;
    }
    Ok(())
}

/// Adds the line that counts the work items.
fn put_count(out: &mut Vec<u8>, count: usize) -> Result<(), AllocError>
    ensures { OnOk result (out.new.items ≡ out.old.items ++ items_line count) }
{
    out.extend_from_slice(b"items ")?;
    put_digits(out, count as u64)?;
    out.push(b'\n')?;
    Ok(())
}

/// The lines of an audit.
fn lines_of(alloc: Global, audits: &[Audited]) -> Result<Vec<u8>, AllocError>
    ensures { IfOk result (λ text. text.items ≡ lines_of audits.now) }
{
    let mut out = Vec::new(alloc);
    put_audits(&mut out, audits)?;
    put_count(&mut out, audits.len())?;
    Ok(out)
}

/// The audit of a history as it is written, by so many workers. An error is want of memory.
pub(crate) fn audit_text<G: Gate + Sync, R: Threads + Wait + Sync>(
    rt: &R,
    alloc: Global,
    history: &History,
    workers: u8,
    gate: &G,
) -> Result<Vec<u8>, AllocError>
    requires events { length history.now.events ≤ EVENTS }
    requires workers { IsWorkers workers }
    ensures { IfOk result (λ text. text.items ≡ audit_text history.now) }
{
    let audits = audit(rt, alloc, history, workers, ROOM, gate)?;
    lines_of(alloc, audits.as_slice())
}
