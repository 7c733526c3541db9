//! `ntlab` answers questions about driver scripts: whether something can happen under any schedule,
//! what happens in a run, and why a thing has not run.
//!
//! The program opens the file that the words name, or takes standard input, gives the words behind
//! its name and the streams to the top call of `nt_bench`, which says what each form reads and
//! writes, and ends with the number of its status.
#![tactic(auto)]

use nt_ask::Status;
use nt_bench::{file_of, ntlab, starved, unopened};
use nt_outside::Sink;
use nt_streams::{ReadSource, WriteSink};
use std::process::ExitCode;
use std::rt::{Env, Files};
use std::{env, fs, io};

/// The words behind the program's name.
fn given_words<R: Env + AllocGlobal>(rt: &R) -> io::Result<Vec<String>> {
    let words = env::args(rt)?.skip(1).collect(rt.alloc())?;
    Ok(words)
}

/// What the words ask of the file of this name.
fn on_file<R: Files + AllocGlobal, K: Sink, E: Sink>(
    rt: &R,
    words: &[String],
    name: &str,
    out: &mut K,
    err: &mut E,
) -> Status {
    match fs::open(rt, name) {
        Ok(file) => ntlab(rt.alloc(), words, &mut ReadSource::new(file), out, err),
        Err(error) if error.kind() == io::ErrorKind::OutOfMemory => starved(err),
        Err(_) => unopened(rt.alloc(), name, err),
    }
}

fn main(rt: HostRuntime) -> ExitCode {
    let mut source = ReadSource::new(rt.stdin());
    let mut out = WriteSink::new(rt.stdout());
    let mut err = WriteSink::new(rt.stderr());
    let status = match given_words(&rt) {
        Ok(words) => match file_of(words.as_slice()) {
            Some(name) => on_file(&rt, words.as_slice(), name, &mut out, &mut err),
            None => ntlab(
                rt.alloc(),
                words.as_slice(),
                &mut source,
                &mut out,
                &mut err,
            ),
        },
        Err(error) if error.kind() == io::ErrorKind::OutOfMemory => starved(&mut err),
        // Words that are no text are no form.
        Err(_) => ntlab(rt.alloc(), &[], &mut source, &mut out, &mut err),
    };
    ExitCode::from(status.number())
}
