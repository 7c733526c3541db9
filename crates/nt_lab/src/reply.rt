//! A status with the text that is written for it.
ghost use Rattle.std.specs.Prelude.{◌≡◌};
ghost use Rattle.nt_lab.specs.Replies.{memory_line, text_of};

use nt_ask::Status;

/// A text to be written.
#[derive(Drop)]
pub enum Text {
    /// A line that never changes.
    Line(&'static str),
    /// A text that was made.
    Made(Vec<u8>),
}

/// A status and the text that is written for it.
#[derive(Drop)]
pub struct Reply {
    pub status: Status,
    pub text: Text,
}

impl Text {
    pub fn as_bytes(&self) -> &[u8]
        ensures { result.now ≡ text_of self.now }
    {
        match self {
            Text::Line(line) => line.as_bytes(),
            Text::Made(text) => text.as_slice(),
        }
    }
}

/// A status with a line that never changes.
pub fn line(status: Status, text: &'static str) -> Reply
    ensures status { result.status ≡ status }
    ensures text { text_of result.text ≡ text.now }
{
    Reply {
        status,
        text: Text::Line(text),
    }
}

/// There is not enough memory.
pub fn no_memory() -> Reply
    ensures status { result.status ≡ Status.Memory }
    ensures text { text_of result.text ≡ memory_line }
{
    line(Status::Memory, "no memory\n")
}
