//! What an event leaves of a processor.
ghost use Rattle.std.specs.Prelude.{◌≡◌, ◌<◌, ◌^◌, IfSome, max};
ghost use Rattle.nt_event.specs.Step.{thread_field};
ghost use Rattle.nt_event.specs.Lists.{table, value_at};
ghost use Rattle.nt_frame.specs.Nesting.{AreNamedBelow, AreNested};
ghost use Rattle.nt_cpu.specs.Fits.{Allow};
ghost use Rattle.nt_cpu.specs.Leaves.{own_with};
ghost use Rattle.nt_cpu.specs.Notices.{HasClass, notice_of};

use crate::cpu::Cpu;
use crate::due::renew_due;
use crate::framing::apply;
use crate::notice::Notice;
use nt_event::Event;
use nt_frame::Frames;

/// The frames are nested, as their type keeps them.
fn nested(frames: &Frames)
    ensures { AreNested frames.now }
{
    let _ = frames.top();
}

impl<'s> Cpu<'s> {
    /// This is noticed beside what was seen.
    #[inline(always)]
    pub(crate) fn notice(&mut self, notice: &Notice)
        requires { HasClass notice.now }
        ensures { self.new ≡ record self.old {
          own = record self.old.own {
            seen = table 16 (λ c. max (value_at self.old.own.seen c) (notice_of notice.now c));
          };
        } }
    {
        let interrupts = notice.raise(&mut self.seen);
        renew_due(&mut self.due, !interrupts, &self.seen, &self.kept.served);
    }

    /// The event of this number and due time happened; what is noticed of it was seen before.
    pub(crate) fn take_up(&mut self, event: &Event, n: u64, due: Option<u64>)
        requires room { self.old.own.made < self.old.limit }
        requires number { AreNamedBelow n self.old.own.frames }
        requires due { IfSome due (λ d. d < 2 ^ 51) }
        requires thread { event.now.thread
            ≡ thread_field event.now.what self.old.own.frames.running }
        requires allow { Allow self.old.script event.now.what self.old.own.frames }
        ensures { self.new ≡ record self.old {
          own =
              own_with self.old.script n due event.now
              (λ c. value_at self.old.own.seen c) self.old.own;
        } }
    {
        apply(&mut self.frames, self.script, event, n, due);
        nested(&self.frames);
        self.made += 1;
        let serves = self.kept.take_up(self.script, &event.what, &self.seen);
        renew_due(&mut self.due, !serves, &self.seen, &self.kept.served);
    }
}
