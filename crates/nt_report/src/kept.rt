//! Event lines as they are kept until the turns are read.
ghost use Rattle.std.specs.Prelude.{◌≡◌};

use crate::events::EventLine;
use nt_history::{Brief, Events, Noticed};
use std::alloc::AllocError;
use std::marker::Model;

/// An event line in little memory: its number, and a brief of its event. Contracts see the line.
#[derive(Drop, Debug)]
pub(crate) struct KeptLine {
    number: u64,
    brief: Brief,
}

impl Model for KeptLine {
    ghost use Rattle.nt_report.specs.declared.events.EventLine.{EventLine as Line};
    ghost use Rattle.nt_history.specs.Briefs.{event_of, no_rises};

    ghost Value = { Line };

    ghost view = { λ a. record { number = a.number; event = event_of no_rises a.brief } };
}

impl KeptLine {
    ghost use Rattle.std.specs.Prelude.{◌≡◌, ◌++◌, ◌∷◌, [], OnErr, OnOk};
    ghost use Rattle.nt_history.specs.Briefs.{HasValues, no_rises};

    /// The line, whose event is no look that noticed something: what a look noticed would be lost.
    pub fn of(line: &EventLine) -> KeptLine
        requires { HasValues no_rises line.now.event.what }
        ensures { result ≡ line.now }
    {
        KeptLine {
            number: line.number,
            brief: Brief::of(&line.event, Noticed::NOTHING),
        }
    }

    /// The number at its head.
    pub fn number(&self) -> u64
        ensures { result ≡ self.now.number }
    {
        self.number
    }

    /// Adds its event behind the others. Where no memory is found, they are as before.
    pub fn add_to(&self, events: &mut Events) -> Result<(), AllocError>
        ensures ok { OnOk result (events.new ≡ events.old ++ self.now.event ∷ []) }
        ensures err { OnErr result (events.new ≡ events.old) }
    {
        events.push_brief(&self.brief)
    }
}
