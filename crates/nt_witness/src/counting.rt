//! How many turns or events processors have.
ghost use Rattle.std.specs.Prelude.{◌≡◌, ◌+◌, ◌<◌, ◌==◌, reverse};
ghost use Rattle.std.specs.List.{count_by};
ghost use Rattle.nt_witness.specs.Limits.{most_of as most_in, some_is_cut as some_is_cut_in};

use nt_event::{Script, Turn};
use nt_history::{Brief, History};

/// The most turns that one processor takes.
pub(crate) fn most_of(turns: &[Turn]) -> usize
    ensures { result ≡ most_in turns.now }
{
    let mut counts = [0usize; 256];
    let mut most = 0;
    for turn in turns {
        let cpu = usize::from(turn.cpu().0);
        counts[cpu] += 1;
        most = most.max(counts[cpu]);
    }
    most
}

/// How many of the events the processor of this number made.
fn made(events: &[Brief], cpu: u8) -> usize
    ensures { result ≡ count_by (λ e. e.cpu.0 == cpu) events.now }
{
    events.iter().filter(|event| event.cpu.0 == cpu).count()
}

/// Whether some processor of the script made as many events as the turn limit.
pub(crate) fn some_is_cut(script: &Script, history: &History) -> bool
    ensures { result
        ≡ some_is_cut_in script.now history.now.turns (reverse history.now.events) }
{
    let events = history.lend();
    for cpu in 0..script.cpus {
        if history.turns() as usize <= made(events.briefs, cpu) {
            return true;
        }
    }
    false
}
