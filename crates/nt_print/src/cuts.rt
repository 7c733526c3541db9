//! The lines of the processors that were cut.
ghost use Rattle.std.specs.Prelude.{◌≡◌, ◌++◌, OnOk, length};
ghost use Rattle.nt_text.specs.Lines.{row_text, rows_text};
ghost use Rattle.nt_print.specs.Counts.{TellsMade};
ghost use Rattle.nt_print.specs.Report.{made, cut_row, cut_of, cut_rows};

use crate::numbers::Numbers;
use nt_history::History;
use nt_text::put_processor;
use std::alloc::AllocError;

fn put_cut(out: &mut Vec<u8>, cpu: u8) -> Result<(), AllocError>
    ensures { OnOk result (out.new.items ≡ out.old.items ++ row_text (cut_row cpu)) }
{
    out.extend_from_slice(b"cut")?;
    put_processor(out, u64::from(cpu))?;
    out.push(b'\n')?;
    Ok(())
}

/// Adds the line of a processor, where it made as many events as it may.
fn put_cut_of(out: &mut Vec<u8>, cpu: u8, count: usize, history: &History) -> Result<(), AllocError>
    requires { count ≡ made cpu history.now.events }
    ensures { OnOk result (out.new.items ≡ out.old.items ++ rows_text (cut_of history.now cpu)) }
{
    if count == history.turns() as usize {
        put_cut(out, cpu)
    } else {
        Ok(())
    }
}

/// Adds a line for each processor that made as many events as it may, where these are the counts of
/// their events.
pub(crate) fn put_cuts(
    out: &mut Vec<u8>,
    cpus: u8,
    counts: &Numbers,
    history: &History,
) -> Result<(), AllocError>
    requires len { length counts.now ≡ cpus }
    requires made { TellsMade history.now.events counts.now }
    ensures { OnOk result
        (out.new.items ≡ out.old.items ++ rows_text (cut_rows history.now 0 cpus)) }
{
    for cpu in 0..cpus {
        put_cut_of(out, cpu, counts.at(cpu as usize), history)?;
    }
    Ok(())
}
