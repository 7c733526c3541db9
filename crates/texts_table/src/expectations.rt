//! Cases of expectations. A line is the second one of three behind a small driver script: `expect`
//! stands above it and `done` below. What is written is the line, `: `, and the number of what is
//! wrong with it, 0 where nothing is.
ghost use Rattle.nt_script.specs.Sound.{IsSound};

use nt_expect::{ExpectRefusal, read_expectations};
use nt_script::{Input, read};
use nt_text::INPUT_LIMIT;
use std::alloc::Global;
use std::io;

/// Six lines that declare a DPC, a timer and a thread.
const SCRIPT: &str = "cpus 1\ndpc d r\ntimer t d\nthread w 0 r\nroutine r\nexit\n";

/// The number of what is wrong with the second line of a text behind the script.
fn number(alloc: Global, input: &Input, text: &[u8]) -> Option<u8>
    requires { IsSound input.now }
{
    if text.len() > INPUT_LIMIT {
        return None;
    }
    match read_expectations(alloc, input, text, 7) {
        Ok(found) => {
            drop(found);
            Some(0)
        }
        Err(ExpectRefusal::Bad { line: 8, kind }) => Some(kind.number()),
        Err(_) => None,
    }
}

/// Writes what is wrong with a line, of which the text is.
fn put_number(rt: &HostRuntime, input: &Input, entry: &str, text: &[u8]) -> io::Result<()>
    requires { IsSound input.now }
{
    match number(rt.alloc(), input, text) {
        Some(number) => println!(rt; "{entry}: {number}"),
        None => println!(rt; "{entry}: another line is bad"),
    }
}

/// Writes what is wrong with a line of the table, of which the text is.
fn put_read(rt: &HostRuntime, entry: &str, text: &[u8]) -> io::Result<()> {
    match read(rt.alloc(), SCRIPT.as_bytes()) {
        Ok(input) => {
            let written = put_number(rt, &input, entry, text);
            drop(input);
            written
        }
        Err(_) => println!(rt; "no script"),
    }
}

/// A line of the table.
pub(crate) fn put_case(rt: &HostRuntime, entry: &str) -> io::Result<()> {
    let text = format!(in rt.alloc(); "expect\n{entry}\ndone\n")?;
    put_read(rt, entry, text.as_bytes())
}
