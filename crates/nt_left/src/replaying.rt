//! The run, made once more.
ghost use Rattle.std.specs.Prelude.{◌≡◌, [], reverse};
ghost use Rattle.nt_event.specs.Step.{IsRun};
ghost use Rattle.nt_plain.specs.States.{view_of};
ghost use Rattle.nt_cpus.specs.Following.{AreAfter};
ghost use Rattle.nt_left.specs.Walks.{past_of};

use nt_cpu::no_event;
use nt_cpus::Processors;
use nt_history::Briefs;
use nt_plain::PlainFloor;

/// Makes the events of a run once more, by processors and a floor that made none.
pub(crate) fn follow(processors: &mut Processors, floor: &mut PlainFloor, events: &Briefs)
    requires start { AreAfter [] processors.old floor.old.script (view_of floor.old) }
    requires run { IsRun processors.old.script processors.old.limit (past_of events.now) }
    ensures after { AreAfter (past_of events.now) processors.new floor.new.script
        (view_of floor.new) }
    ensures kept { (processors.new.script ≡ processors.old.script)
        × (processors.new.limit ≡ processors.old.limit) }
{
    let mut made = no_event();
    for number in 0..events.briefs.len() {
        let taken = processors.turn(floor, &events.turn(number), &mut made);
        if taken.is_err() {
            unreachable!();
        }
    }
}
