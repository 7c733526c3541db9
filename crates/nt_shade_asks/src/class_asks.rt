//! What a processor was asked for of one class.
ghost use Rattle.std.specs.Prelude.{◌≡◌, ◌++◌, ◌<◌, ◌≤◌, ◌^◌, OnOk, length, map, nat_lt};
ghost use Rattle.std.specs.List.{count_by};
ghost use Rattle.nt_shade_asks.specs.Counts.{class_counts, left_by};

use nt_event::CpuNo;
use std::alloc::AllocError;

/// What a processor was asked for of one class. A value is one more than the number of the event
/// that asked.
#[derive(Drop, Debug)]
pub struct ClassAsks {
    pub cpu: CpuNo,
    pub class: u8,
    /// The greatest value that the processor noticed.
    pub seen: u64,
    /// What it had noticed when it served the class last.
    pub served: u64,
    /// The values that it was asked by and has not noticed, in rising order.
    pub ahead: Vec<u64>,
    /// The greatest value that each lane tells, by the lane's number. Where no value is ahead it
    /// counts for nothing, and may be empty.
    pub told: Vec<u64>,
}

/// How many of the values are above this one.
fn count_above(values: &[u64], told: u64) -> usize
    ensures value { result ≡ count_by (nat_lt told) values.now }
    ensures bound { result ≤ length values.now }
{
    values.iter().filter(|value| told < **value).count()
}

impl ClassAsks {
    /// The values that the processor was asked by and has not noticed, in rising order.
    pub(crate) fn ahead(&self) -> &[u64]
        ensures { result.now ≡ self.now.ahead.items }
    {
        self.ahead.as_slice()
    }

    /// Adds how many of the asks ahead each lane would leave ahead.
    fn write_lefts(&self, counts: &mut Vec<u32>) -> Result<(), AllocError>
        requires { length self.now.ahead.items < 2 ^ 32 }
        ensures { OnOk result (counts.new.items ≡ counts.old.items
            ++ map (left_by self.now.ahead.items) self.now.told.items) }
    {
        for told in &self.told {
            counts.push(count_above(self.ahead.as_slice(), *told) as u32)?;
        }
        Ok(())
    }

    /// Adds what can be compared: whether the class is due, how many asks are ahead, and, where any
    /// is, how many of them each lane would leave ahead.
    pub(crate) fn write_counts(&self, counts: &mut Vec<u32>) -> Result<(), AllocError>
        requires { length self.now.ahead.items < 2 ^ 32 }
        ensures { OnOk result (counts.new.items ≡ counts.old.items ++ class_counts self.now) }
    {
        counts.push(u32::from(self.served < self.seen))?;
        counts.push(self.ahead.len() as u32)?;
        if !self.ahead.is_empty() {
            self.write_lefts(counts)?;
        }
        Ok(())
    }
}
