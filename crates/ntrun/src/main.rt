//! `ntrun` decides when deferred work may run, by the rules of Windows Internals and the driver
//! documentation for x64, with marked choices.
//!
//! The program gives the words behind its name and the standard streams to the top call of
//! `nt_top`, which says what each form reads and writes, and ends with the number of its status.
#![tactic(auto)]

use nt_outside::{OpenGate, StdSink, StdSource};
use nt_top::{ntrun, starved};
use std::process::ExitCode;
use std::rt::Env;
use std::{env, io};

/// The words behind the program's name.
fn given_words<R: Env + AllocGlobal>(rt: &R) -> io::Result<Vec<String>> {
    let words = env::args(rt)?.skip(1).collect(rt.alloc())?;
    Ok(words)
}

fn main(rt: HostRuntime) -> ExitCode {
    let mut source = StdSource::new(rt.stdin());
    let mut sink = StdSink::new(rt.stdout());
    let status = match given_words(&rt) {
        Ok(words) => ntrun(
            &rt,
            rt.alloc(),
            words.as_slice(),
            &mut source,
            &mut sink,
            &OpenGate,
        ),
        Err(error) if error.kind() == io::ErrorKind::OutOfMemory => starved(&mut sink),
        // Words that are no text are no form.
        Err(_) => ntrun(&rt, rt.alloc(), &[], &mut source, &mut sink, &OpenGate),
    };
    ExitCode::from(status.number())
}
