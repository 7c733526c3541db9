//! Processors on threads, one case a line of the input: a word, the turn limit and what more the
//! case has in numbers, then `|`, and a script in which `/` stands for the end of a line. What is
//! written for a case is what stands before `|`, and what was seen, which is the same in whatever
//! order the threads get on. Where `locks` stands in the place of the script, the name of a script
//! with spin locks follows.
//!
//! `meet`: two processors wait at a gate for each other. `follow`: one waits there for a later
//! event of the other. `live`: the processors run on threads; the history is checked, and its turns
//! are replayed. `load`: the same for the load of a seed, whose script isn't given. `pieces`: the
//! workers work one after another on one thread, and what they made is gathered. `first`: only the
//! first one works. `turn`: processor 0 takes up its first thread while a lane is held, by a gate
//! that looks so many times for the end of that turn. `hold`: a second lane is held meanwhile.
//! `next`: processor 0 makes its second event while a lane is held. `cross`: two processors wait at
//! a gate for each other once each has a lock that the other wants. `wake`: one asks another for
//! something when that one rests. What is wanted stands in `stdout`.
//!
//! What a case makes is let go by a call of `drop`: that is proved far sooner than a function at
//! whose end all parts of a script or a history go.
#![tactic(auto)]

mod beginning;
mod cases;
mod flags;
mod gates;
mod lanes;
mod lock_scripts;
mod outcomes;
mod pieces;
mod runs;

use crate::cases::case_of;
use crate::outcomes::outcome;
use std::alloc::{AllocError, Global};
use std::io;
use std::sync::Wait;
use std::thread::Threads;

/// The two sides of a line.
fn sides_of(entry: &str) -> (&str, &str) {
    entry.split_once('|').unwrap_or(("", ""))
}

/// What is seen of a case.
fn seen_of<R: Threads + Wait + Sync>(
    rt: &R,
    alloc: Global,
    head: &str,
    script: &str,
) -> Result<&'static str, AllocError> {
    match case_of(head) {
        Some(case) => outcome(rt, alloc, &case, script),
        None => Ok("no case"),
    }
}

/// Writes what was seen of a case.
fn put_seen(
    rt: &HostRuntime,
    head: &str,
    seen: Result<&'static str, AllocError>,
) -> io::Result<()> {
    let seen = seen?;
    println!(rt; "{head}: {seen}")
}

fn main(rt: HostRuntime) -> io::Result<()> {
    for line in rt.lines(rt.alloc()) {
        let entry = line?;
        let (head, script) = sides_of(entry.as_str());
        put_seen(&rt, head, seen_of(&rt, rt.alloc(), head, script))?;
    }
    Ok(())
}
