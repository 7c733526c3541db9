//! What is replied to `tidy`.
ghost use Rattle.std.specs.Prelude.{◌≤◌, length};
ghost use Rattle.nt_lab.specs.Replies.{text_of};
ghost use Rattle.nt_text.specs.declared.lines.TheConstants.{INPUT_LIMIT};
ghost use Rattle.nt_bench.specs.Friendly.{IsFriendly};
ghost use Rattle.nt_bench.specs.Tidying.{IsCopy, IsReadAs, IsTidiedIn};

use crate::friendly::Friendly;
use crate::reply::made;
use nt_ask::Status;
use nt_lab::{Reply, no_memory};
use nt_people::Fault;
use nt_script::{ScriptRefusal, read};
use nt_shown::script_part;
use std::alloc::Global;

/// Whether the bytes are a script, or why not.
fn read_as_script(alloc: Global, bytes: &[u8]) -> Result<(), ScriptRefusal>
    requires { length bytes.now ≤ INPUT_LIMIT }
    ensures { IsReadAs bytes.now result }
{
    match read(alloc, bytes) {
        Ok(input) => {
            drop(input);
            Ok(())
        }
        Err(refusal) => Err(refusal),
    }
}

/// The bytes as a text of their own.
fn copied(alloc: Global, bytes: &[u8]) -> Reply
    ensures { IsCopy bytes.now result.status (text_of result.text) }
{
    match bytes.to_vec(alloc) {
        Ok(text) => made(Status::Ok, text),
        Err(_) => no_memory(),
    }
}

/// What is replied to `tidy`: the strict script that a friendly text has, where it is one.
pub(crate) fn tidied_in(alloc: Global, friendly: &Friendly<'_>) -> Reply
    requires { IsFriendly friendly.now }
    ensures { IsTidiedIn friendly.now result.status (text_of result.text) }
{
    let script = script_part(friendly.tidied.text.as_slice());
    match read_as_script(alloc, script) {
        Ok(()) => copied(alloc, script),
        Err(ScriptRefusal::Bad { line, kind }) => {
            friendly.refused(alloc, line, Fault::Script(kind))
        }
        Err(ScriptRefusal::NoMemory) => no_memory(),
    }
}
