//! Gates that hold a thread up for another one.
use crate::flags::{Flag, Flags, LOOKS};
use nt_outside::Gate;

/// How often processor 0 looks for a flag that nobody sets, so that processor 1 comes to rest
/// meanwhile.
const DELAY: u32 = 20_000_000;

/// Processors 0 and 1 meet before their second events: each sets a flag there, and looks for the
/// other's.
#[derive(Drop)]
pub(crate) struct Meeting<'a> {
    pub(crate) flags: &'a Flags,
}

impl Gate for Meeting<'_> {
    fn pass(&self, cpu: u8, own: u64) {
        match (cpu, own) {
            (0, 1) => {
                self.flags.first.set();
                self.flags.second.look_for(LOOKS);
            }
            (1, 1) => {
                self.flags.second.set();
                self.flags.first.look_for(LOOKS);
            }
            _ => {}
        }
    }
}

/// Processors 0 and 1 meet before their third events: each sets a flag there, and looks for the
/// other's.
#[derive(Drop)]
pub(crate) struct Crossing<'a> {
    pub(crate) flags: &'a Flags,
}

impl Gate for Crossing<'_> {
    fn pass(&self, cpu: u8, own: u64) {
        match (cpu, own) {
            (0, 2) => {
                self.flags.first.set();
                self.flags.second.look_for(LOOKS);
            }
            (1, 2) => {
                self.flags.second.set();
                self.flags.first.look_for(LOOKS);
            }
            _ => {}
        }
    }
}

/// Processor 0 looks for the first flag before its second event, and processor 1 sets it when it
/// made its fifth; the second flag is set there too.
#[derive(Drop)]
pub(crate) struct Following<'a> {
    pub(crate) flags: &'a Flags,
}

impl Gate for Following<'_> {
    fn pass(&self, cpu: u8, own: u64) {
        match (cpu, own) {
            (0, 1) => {
                self.flags.first.look_for(LOOKS);
                self.flags.second.set();
            }
            (1, 5) => self.flags.first.set(),
            _ => {}
        }
    }
}

/// Processor 0 makes its second event when processor 1 rests: it looks there for the first flag,
/// which processor 1 sets before its second event, and then for a flag that nobody sets. Processor
/// 1 sets the second flag before its third event.
#[derive(Drop)]
pub(crate) struct Resting<'a> {
    pub(crate) flags: &'a Flags,
}

impl Gate for Resting<'_> {
    fn pass(&self, cpu: u8, own: u64) {
        match (cpu, own) {
            (0, 1) => {
                self.flags.first.look_for(LOOKS);
                Flag::new().look_for(DELAY);
            }
            (1, 1) => self.flags.first.set(),
            (1, 2) => self.flags.second.set(),
            _ => {}
        }
    }
}

/// Whoever passes sets the first flag, and looks for the second.
#[derive(Drop)]
pub(crate) struct Holding<'a> {
    pub(crate) flags: &'a Flags,
    pub(crate) looks: u32,
}

impl Gate for Holding<'_> {
    fn pass(&self, _cpu: u8, _own: u64) {
        self.flags.first.set();
        self.flags.second.look_for(self.looks);
    }
}

/// Whoever passes sets the second flag.
#[derive(Drop)]
pub(crate) struct Freeing<'a> {
    pub(crate) flags: &'a Flags,
}

impl Gate for Freeing<'_> {
    fn pass(&self, _cpu: u8, _own: u64) {
        self.flags.second.set();
    }
}
