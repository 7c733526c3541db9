//! Work items, one for each `note` of a history.
ghost use Rattle.std.specs.Prelude.{◌≡◌, ◌++◌, ℕ, IfOk, OnOk, reverse};
ghost use Rattle.nt_event.specs.declared.events.Rises.{Rises};
ghost use Rattle.nt_history.specs.Briefs.{what_of};
ghost use Rattle.nt_work.specs.Audits.{item_by, items_of, word_of, word_noted};

use nt_event::{Command, CpuNo};
use nt_history::{Brief, Did, History};
use std::alloc::{AllocError, Global};

/// The work item of a call of `note`.
#[derive(Clone, Copy, PartialEq, Eq, Debug)]
pub struct Item {
    /// The number of the event.
    pub event: u64,
    /// The processor that made it.
    pub cpu: CpuNo,
    /// The word that is noted.
    pub word: u32,
}

/// A work item that was done.
#[derive(Clone, Copy, PartialEq, Eq, Debug)]
pub struct Audited {
    pub item: Item,
    /// How many inserts were pending when the item was queued.
    pub waiting: u32,
}

/// The word that a command notes; None where it is no `note`.
fn noted_by(command: &Command) -> Option<u32>
    ensures { result ≡ word_noted command.now }
{
    match command {
        Command::Note(word) => Some(*word),
        Command::Raise(_)
        | Command::Lower(_)
        | Command::Queue(_)
        | Command::Unqueue(_)
        | Command::SetImportance(_, _)
        | Command::SetTarget(_, _)
        | Command::SetTimer(_, _, _)
        | Command::CancelTimer(_)
        | Command::InsertApc(_)
        | Command::RemoveApc(_)
        | Command::EnterCrit
        | Command::EnterGuard
        | Command::LeaveCrit
        | Command::LeaveGuard
        | Command::StartWait(_, _)
        | Command::Delay(_, _, _)
        | Command::Release(_)
        | Command::Alert(_, _)
        | Command::TestAlert(_)
        | Command::Interrupt(_, _)
        | Command::Clock(_)
        | Command::ToUser
        | Command::Yield
        | Command::Acquire(_)
        | Command::Unlock(_) => None,
    }
}

/// The word that an event notes; None where it is no call of `note`.
fn noted(did: &Did) -> Option<u32>
    ensures { (r : Rises) → result ≡ word_of (what_of r did.now) }
{
    match did {
        Did::Call { command, .. } => noted_by(command),
        Did::Look { .. }
        | Did::Begin { .. }
        | Did::Normal { .. }
        | Did::End { .. }
        | Did::Expire { .. }
        | Did::Fire { .. }
        | Did::Clean { .. }
        | Did::Switch { .. }
        | Did::Rewait { .. }
        | Did::Flush { .. }
        | Did::Gone { .. }
        | Did::Free { .. }
        | Did::Rest => None,
    }
}

/// Adds the work item of an event, if it has one.
fn put_item(items: &mut Vec<Item>, number: u64, brief: &Brief) -> Result<(), AllocError>
    ensures { OnOk result ((r : Rises) → items.new.items ≡
        items.old.items ++ item_by number brief.now.cpu (word_of (what_of r brief.now.did))) }
{
    if let Some(word) = noted(&brief.did) {
        items.push(Item {
            event: number,
            cpu: brief.cpu,
            word,
        })?;
    }
    Ok(())
}

/// The work items of a history: one for each call of `note`, in the order of the events.
///
/// An error is want of memory.
pub fn items(alloc: Global, history: &History) -> Result<Vec<Item>, AllocError>
    ensures { IfOk result (λ v. v.items ≡ items_of (reverse history.now.events)) }
{
    let events = history.lend();
    let mut items = Vec::new(alloc);
    for number in 0..events.briefs.len() {
        put_item(&mut items, number as u64, &events.briefs[number])?;
    }
    Ok(items)
}
