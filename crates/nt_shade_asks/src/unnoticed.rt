//! What all processors were asked for.
ghost use Rattle.std.specs.Prelude.{◌≡◌, ◌++◌, ◌<◌, List, OnOk};
ghost use Rattle.nt_event.specs.declared.events.Event.{Event};
ghost use Rattle.nt_event.specs.declared.scripts.Script.{Script};
ghost use Rattle.nt_event.specs.Requests.{seen};
ghost use Rattle.nt_shade_asks.specs.Counts.{AreFew, counts_of};
ghost use Rattle.nt_shade_asks.specs.Follows.{IsAsked, IsOf};
ghost use Rattle.nt_shade_asks.specs.Values.{values_above};

use crate::class_asks::ClassAsks;
use nt_event::{CpuNo, class};
use std::alloc::AllocError;

/// What the processors of a script were asked for and have not noticed, class by class.
#[derive(Drop, Debug)]
pub struct Unnoticed {
    /// Those of a processor stand together, in the order of the classes.
    pub classes: Vec<ClassAsks>,
}

impl Unnoticed {
    /// The values that the processor was asked by for the class and has not noticed, in rising
    /// order.
    pub fn ahead(&self, cpu: CpuNo, class: u8) -> &[u64]
        requires { class < 16 }
        ensures { (s : Script) → (past : List Event) → IsOf s self.now → IsAsked s past self.now →
            cpu.0 < s.cpus →
            result.now ≡ values_above s cpu class (seen s cpu class past) past }
    {
        let place = usize::from(cpu.0) * class::COUNT + usize::from(class);
        match self.classes.as_slice().get(place) {
            Some(row) => row.ahead(),
            None => &[],
        }
    }

    /// Adds what can be compared: histories with the same counts have the same of what was asked
    /// and not noticed, but for the numbers of events. Where no memory is found, some counts may
    /// have been added.
    pub fn write_counts(&self, counts: &mut Vec<u32>) -> Result<(), AllocError>
        requires { AreFew self.now }
        ensures { OnOk result (counts.new.items ≡ counts.old.items ++ counts_of self.now) }
    {
        for row in &self.classes {
            row.write_counts(counts)?;
        }
        Ok(())
    }
}
