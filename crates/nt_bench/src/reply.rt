//! A status with the text that is written for it, and where it is written.
ghost use Rattle.std.specs.Prelude.{◌≡◌};
ghost use Rattle.nt_ask.specs.declared.answer.Status.{Status as TheStatus};
ghost use Rattle.nt_lab.specs.Replies.{memory_line, text_of};
ghost use Rattle.nt_bench.specs.Writing.{stream_of};

use nt_ask::Status;
use nt_lab::{Reply, Text};

/// Where a text is written.
#[derive(Clone, Copy, PartialEq, Eq, Debug)]
pub(crate) enum Stream {
    /// Standard output: answers.
    Out,
    /// Standard error: why there is no answer.
    Err,
}

/// Where the text of a status is written: what was asked is answered on standard output, and
/// nothing stands there where the words, the source, the input or memory are at fault.
pub(crate) fn stream_of(status: Status) -> Stream
    ensures { result ≡ stream_of status }
{
    match status {
        Status::Ok
        | Status::Fails
        | Status::NoExpectation
        | Status::NoWitness
        | Status::Unknown
        | Status::TooManyTurns => Stream::Out,
        Status::Usage
        | Status::Refused
        | Status::Read
        | Status::Write
        | Status::Memory
        | Status::TooLong => Stream::Err,
    }
}

/// A status with a text that was made.
pub(crate) fn made(status: Status, text: Vec<u8>) -> Reply
    ensures status { result.status ≡ status }
    ensures text { text_of result.text ≡ text.items }
{
    Reply {
        status,
        text: Text::Made(text),
    }
}
