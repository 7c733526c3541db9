//! What is shown of a run: a span of its events, and the processors.
use nt_event::CpuNo;
use nt_history::{Briefs, History};
use std::alloc::{AllocError, Global};

/// Up to so many processors are all shown; of more those that have an event in the span.
const ALL_SHOWN: u8 = 4;

/// Events by number, from the first to the last, both included.
#[derive(Clone, Copy, PartialEq, Eq, Debug)]
pub struct Span {
    pub from: u32,
    pub to: u32,
}

impl Span {
    /// All events of a history.
    pub fn whole(history: &History) -> Span {
        Span {
            from: 0,
            to: count_of(history.len()).saturating_sub(1),
        }
    }

    /// Whether the event of this number is in the span.
    pub(crate) fn has(&self, number: u32) -> bool {
        self.from <= number && number <= self.to
    }
}

/// A count of events. No history has more than a `u32` can count.
pub(crate) fn count_of(count: usize) -> u32 {
    u32::try_from(count).unwrap_or(u32::MAX)
}

/// How many events of the span a run of so many has.
pub(crate) fn events_in(span: Span, count: usize) -> u32 {
    let end = count_of(count).min(span.to.saturating_add(1));
    end.saturating_sub(span.from)
}

/// Whether the processor has an event in the span.
fn has_event(events: &Briefs, span: Span, cpu: CpuNo) -> bool {
    for (number, brief) in events.briefs.iter().enumerate() {
        if brief.cpu == cpu && span.has(count_of(number)) {
            return true;
        }
    }
    false
}

/// The processors that are shown, in order.
pub(crate) fn shown_cpus(
    alloc: Global,
    cpus: u8,
    events: &Briefs,
    span: Span,
) -> Result<Vec<CpuNo>, AllocError> {
    let mut shown = Vec::new(alloc);
    for cpu in 0..cpus {
        if cpus <= ALL_SHOWN || has_event(events, span, CpuNo(cpu)) {
            shown.push(CpuNo(cpu))?;
        }
    }
    Ok(shown)
}

/// Where a processor stands among those that are shown.
pub(crate) fn lane_of(shown: &[CpuNo], cpu: CpuNo) -> Option<u32> {
    let mut lane: u32 = 0;
    for other in shown {
        if *other == cpu {
            return Some(lane);
        }
        lane = lane.saturating_add(1);
    }
    None
}
