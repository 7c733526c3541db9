//! Fields of a line, each with a space before it.
ghost use Rattle.std.specs.Prelude.{◌≡◌, ◌++◌, ◌∷◌, [], OnOk, decimal, codes};
ghost use Rattle.nt_text.specs.Lines.{spaced};
ghost use Rattle.nt_print.specs.Report.{hexadecimal, replied, used};

use nt_event::Reply;
use nt_text::{put_field, put_number};
use std::alloc::AllocError;

/// Adds a number in hexadecimal.
fn put_hexadecimal(out: &mut Vec<u8>, n: u32) -> Result<(), AllocError>
    ensures { OnOk result (out.new.items ≡ out.old.items ++ spaced (hexadecimal n ∷ [])) }
{
    let text = format!(in *out.allocator(); "{n:x}")?;
    put_field(out, text.as_bytes())
}

/// Adds `status` and a wait's status.
pub(crate) fn put_status(out: &mut Vec<u8>, status: u32) -> Result<(), AllocError>
    ensures { OnOk result
        (out.new.items ≡ out.old.items ++ spaced (codes "status" ∷ hexadecimal status ∷ [])) }
{
    out.extend_from_slice(b" status")?;
    put_hexadecimal(out, status)
}

/// Adds `->` and a reply.
pub(crate) fn put_replied(out: &mut Vec<u8>, reply: Reply) -> Result<(), AllocError>
    ensures { OnOk result (out.new.items ≡ out.old.items ++ spaced (replied reply)) }
{
    match reply {
        Reply::Done => out.extend_from_slice(b" -> done"),
        Reply::Yes => out.extend_from_slice(b" -> yes"),
        Reply::No => out.extend_from_slice(b" -> no"),
        Reply::Status(status) => {
            out.extend_from_slice(b" -> status")?;
            put_hexadecimal(out, status)
        }
        Reply::Blocked => out.extend_from_slice(b" -> blocked"),
        Reply::Spin => out.extend_from_slice(b" -> spin"),
        Reply::Refused(refusal) => {
            out.extend_from_slice(b" -> refused")?;
            put_number(out, u64::from(refusal.number()))?;
            put_field(out, refusal.name().as_bytes())
        }
    }
}

/// Adds `of` and the number of the event that is used up.
pub(crate) fn put_used(out: &mut Vec<u8>, from: u64) -> Result<(), AllocError>
    ensures { OnOk result (out.new.items ≡ out.old.items ++ spaced (used from)) }
{
    out.extend_from_slice(b" of")?;
    put_number(out, from)
}
