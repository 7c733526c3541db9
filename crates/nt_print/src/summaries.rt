//! The summary of a history.
ghost use Rattle.std.specs.Prelude.{ℕ, ◌≡◌, ◌++◌, ◌≤◌, true, length, IfOk, OnOk};
ghost use Rattle.nt_text.specs.Lines.{row_text};
ghost use Rattle.nt_event.specs.Fitting.{events_fit};
ghost use Rattle.nt_line.specs.NameLists.{NameLists};
ghost use Rattle.nt_print.specs.Counts.{TellsMade};
ghost use Rattle.nt_print.specs.Report.{cut_of, cut_rows, made};
ghost use Rattle.nt_print.specs.Summary.{count_row, summary_text};

use crate::numbers::Numbers;
use crate::tally::tally_of;
use crate::waits::count_waits;
use nt_event::Script;
use nt_history::History;
use nt_text::put_number;
use std::alloc::{AllocError, Global};

/// One for a processor that made as many events as it may, else none.
fn cut_line(cpu: u8, count: usize, history: &History) -> u8
    requires { count ≡ made cpu history.now.events }
    ensures line { result ≡ length (cut_of history.now cpu) }
    ensures one { result ≤ 1 }
{
    if count == history.turns() as usize {
        1
    } else {
        0
    }
}

/// How many of these processors made as many events as they may, where these are the counts of
/// their events.
fn cut_lines(cpus: u8, counts: &Numbers, history: &History) -> u8
    requires len { length counts.now ≡ cpus }
    requires made { TellsMade history.now.events counts.now }
    ensures { result ≡ length (cut_rows history.now 0 cpus) }
{
    let mut lines: u8 = 0;
    for cpu in 0..cpus {
        lines += cut_line(cpu, counts.at(cpu as usize), history);
    }
    lines
}

/// Adds a word and a count as a line.
fn put_count(out: &mut Vec<u8>, word: &[u8], count: usize) -> Result<(), AllocError>
    ensures { OnOk result (out.new.items ≡ out.old.items ++ row_text (count_row word.now count)) }
{
    out.extend_from_slice(word)?;
    put_number(out, count as u64)?;
    out.push(b'\n')?;
    Ok(())
}

/// Six counts of a history, a line each: `events`, `calls`, `refused` (calls that were refused),
/// `begins`, and how many `cut` and `waits` lines its report has, whatever the names of the
/// script's things are. The history's events name things of the script. An error is want of memory.
/// Profile.
pub fn summary(alloc: Global, script: &Script, history: &History) -> Result<Vec<u8>, AllocError>
    requires fit { events_fit script.now history.now.events ≡ true }
    ensures { IfOk result (λ text.
        (version : ℕ) (names : NameLists) →
        text.items ≡ summary_text (record { version = version; script = script.now; names = names })
        history.now) }
{
    let events = history.lend();
    let tally = tally_of(alloc, script, &events)?;
    let cut = cut_lines(script.cpus, &tally.made, history);
    let waits = count_waits(script, &events, &tally);
    let mut out = Vec::new(alloc);
    put_count(&mut out, b"events", events.briefs.len())?;
    put_count(&mut out, b"calls", tally.calls)?;
    put_count(&mut out, b"refused", tally.refused)?;
    put_count(&mut out, b"begins", tally.begins)?;
    put_count(&mut out, b"cut", cut as usize)?;
    put_count(&mut out, b"waits", waits)?;
    Ok(out)
}
