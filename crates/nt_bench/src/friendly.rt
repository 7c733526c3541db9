//! A text as somebody wrote it, and the strict text that it means.
ghost use Rattle.std.specs.Prelude.{◌≡◌, ◌≤◌, IfOk, length};
ghost use Rattle.nt_text.specs.declared.lines.TheConstants.{INPUT_LIMIT};
ghost use Rattle.nt_lab.specs.Replies.{memory_line, text_of};
ghost use Rattle.nt_bench.specs.Friendly.{IsFriendly, IsRefusalText};

use crate::reply::made;
use nt_ask::Status;
use nt_friendly::Tidied;
use nt_lab::{Reply, no_memory};
use nt_people::{Fault, refusal_message};
use std::alloc::Global;

/// What the words name.
#[derive(Clone, Copy)]
pub(crate) struct Named<'a> {
    /// The file of the text; None where it is read from standard input.
    pub(crate) file: Option<&'a str>,
    /// The thing of `why`, of an interrupt its processor.
    pub(crate) thing: &'a str,
    /// The level of an interrupt.
    pub(crate) level: &'a str,
}

/// A text as somebody wrote it, and the strict text that it means.
#[derive(Clone, Copy)]
pub(crate) struct Friendly<'a> {
    pub(crate) named: Named<'a>,
    pub(crate) bytes: &'a [u8],
    pub(crate) tidied: &'a Tidied,
}

impl<'a> Friendly<'a> {
    /// What is replied where this line of the strict text is refused so.
    pub(crate) fn refused(&self, alloc: Global, line: u32, fault: Fault) -> Reply
        requires { IsFriendly self.now }
        ensures { IsRefusalText self.now line fault result.status (text_of result.text) }
    {
        match refusal_message(alloc, self.named.file, self.bytes, self.tidied, line, fault) {
            Ok(text) => made(Status::Refused, text),
            Err(_) => no_memory(),
        }
    }
}
