//! A pass marks an event for what it asks.
ghost use Rattle.std.specs.Prelude.{◌≡◌, ◌<◌, All, Contains};
ghost use Rattle.nt_lane.specs.Marked.{AreMarked};
ghost use Rattle.nt_mark.specs.Names.{cpus_of, pass_table, pass_view, table_of};
ghost use Rattle.nt_mark.specs.Views.{entry_numbers};
ghost use Rattle.nt_states.specs.LaneLists.{as_asks};

use nt_event::Asked;
use nt_mark::{Marks, Pass};

/// Marks the event of a number that the pass drew as asking for each of these, in order. The pass
/// draws, looks at and learns nothing else, and knows then that each of them was asked.
pub(crate) fn mark_all(marks: &Marks, pass: &mut Pass, n: u64, asks: &[Asked])
    requires table { pass_table pass.old ≡ table_of marks.now }
    requires words { All (λ a. (a.cpu.0 < cpus_of marks.now) × (a.class < 16)) asks.now }
    requires drew { Contains (entry_numbers (pass_view pass.old).entries) n }
    ensures table { pass_table pass.new ≡ pass_table pass.old }
    ensures marked { AreMarked n (as_asks asks.now) (pass_view pass.old) (pass_view pass.new) }
{
    for ask in asks {
        marks.mark(pass, ask.cpu, ask.class, n);
    }
}
