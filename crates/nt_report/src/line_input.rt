//! What the lines of a report are read with.
ghost use Rattle.std.specs.Prelude.{◌≡◌};
ghost use Rattle.nt_report.specs.Fields.{read_running};

use nt_event::{CpuNo, ThreadNo};
use nt_line::{Names, fields};
use nt_script::Input;
use nt_text::{ScriptKind, is_word};
use std::marker::Model;

/// How many processors have a field of their own that is remembered: as many as a script has at
/// most. Processors that share one would only be looked up more often.
const PLACES: usize = 64;

/// A field that names the running thread, and the thread that it names.
#[derive(Clone, Copy)]
pub(crate) struct Running<'a> {
    pub field: &'a [u8],
    pub thread: Option<ThreadNo>,
}

/// The input of a report, with what the last event line of each processor names as its running
/// thread. The same field names the same thread, so it is not looked up again. Contracts see the
/// input alone.
#[derive(Drop)]
pub(crate) struct LineInput<'a> {
    input: &'a Input,
    last: [Running<'a>; PLACES],
}

impl<'a> Model for LineInput<'a> {
    ghost use Rattle.nt_script.specs.declared.walk.Input.{Input};
    ghost use Rattle.nt_report.specs.LineInputs.{AreReadInside};

    ghost Value = { Input };

    ghost view = { λ a. a.input.now };

    ghost invariant = { AreReadInside };
}

/// The thread of a name, or none of `-`.
fn running_of(names: &Names, field: &[u8]) -> Result<Option<ThreadNo>, ScriptKind>
    ensures { result ≡ read_running names.now field.now }
{
    if field == b"-".as_slice() {
        return Ok(None);
    }
    Ok(Some(fields::thread(names, field)?))
}

impl<'a> LineInput<'a> {
    /// The input, before any line.
    pub fn new(input: &'a Input) -> LineInput<'a>
        ensures { result ≡ input.now }
    {
        let none = Running {
            field: b"-",
            thread: None,
        };
        LineInput {
            input,
            last: [none; PLACES],
        }
    }

    /// The input.
    pub fn input(&self) -> &'a Input
        ensures { result.now ≡ self.now }
    {
        self.input
    }

    /// The thread that a field names as the one that runs on a processor, or none where it is `-`.
    pub fn running(&mut self, cpu: CpuNo, field: &'a [u8]) -> Result<Option<ThreadNo>, ScriptKind>
        ensures thread { result ≡ read_running self.old.names field.now }
        ensures input { self.new ≡ self.old }
    {
        let place = cpu.0 as usize % PLACES;
        if is_word(field, self.last[place].field) {
            return Ok(self.last[place].thread);
        }
        let thread = running_of(&self.input.names, field)?;
        self.last[place] = Running { field, thread };
        Ok(thread)
    }
}
