//! What is replied to `ask` and `witness`.
ghost use Rattle.nt_ask.specs.declared.words.Form.{Form};
ghost use Rattle.nt_friendly.specs.Text.{strict_text};
ghost use Rattle.nt_ask.specs.Words.{IsWithin};
ghost use Rattle.nt_lab.specs.Replies.{text_of};
ghost use Rattle.nt_bench.specs.Friendly.{IsFriendly};
ghost use Rattle.nt_bench.specs.Asking.{IsAskedIn, IsRefusedBy};

use crate::friendly::Friendly;
use nt_ask::{AskRefusal, Form, read_asked};
use nt_lab::{Reply, no_memory, reply_to};
use nt_people::Fault;
use std::alloc::Global;

/// What is replied where the strict text is refused so, whatever the form.
fn bad_line(alloc: Global, friendly: &Friendly<'_>, refusal: AskRefusal) -> Reply
    requires friendly { IsFriendly friendly.now }
    requires cause { IsRefusedBy (strict_text friendly.now.bytes.now) refusal }
    ensures { (form : Form) → IsAskedIn form friendly.now result.status (text_of result.text) }
{
    match refusal {
        AskRefusal::Script { line, kind } => friendly.refused(alloc, line, Fault::Script(kind)),
        AskRefusal::Expect { line, kind } => friendly.refused(alloc, line, Fault::Expect(kind)),
        AskRefusal::NoMemory => no_memory(),
    }
}

/// What is replied to what is asked in a friendly text, by the form of the words.
pub(crate) fn asked_in(alloc: Global, form: Form, friendly: &Friendly<'_>) -> Reply
    requires friendly { IsFriendly friendly.now }
    requires within { IsWithin form }
    ensures { IsAskedIn form friendly.now result.status (text_of result.text) }
{
    match read_asked(alloc, friendly.tidied.text.as_slice()) {
        Ok(asked) => {
            let reply = reply_to(alloc, form, &asked);
            drop(asked);
            reply
        }
        Err(refusal) => bad_line(alloc, friendly, refusal),
    }
}
