//! Cases of command lines: which form a list of words is. A line is a list: one space is between
//! two words, `~` is the empty word, and an empty line is no words. What is written is the form
//! with its numbers, `no form`, or `no memory`, and then `, live` if one of the words is `live` or
//! `audit`.
use nt_words::{Form, WordsRefusal, form_of, is_live};
use std::alloc::{AllocError, Global};
use std::io;

/// The words of a line of the table.
fn words_of(alloc: Global, line: &str) -> Result<Vec<String>, AllocError> {
    let mut words = Vec::new(alloc);
    if line.is_empty() {
        return Ok(words);
    }
    for word in line.split(' ') {
        let text = if word == "~" { "" } else { word };
        words.push(String::from_str(alloc, text)?)?;
    }
    Ok(words)
}

/// What a list of words is, on a line of its own.
fn put_form(rt: &HostRuntime, words: &[String]) -> io::Result<()> {
    let live = if is_live(words) { ", live" } else { "" };
    match form_of(rt.alloc(), words) {
        Ok(Form::Run { turns }) => println!(rt; "run {turns}{live}"),
        Ok(Form::Live { turns }) => println!(rt; "live {turns}{live}"),
        Ok(Form::Replay) => println!(rt; "replay{live}"),
        Ok(Form::Check) => println!(rt; "check{live}"),
        Ok(Form::Load { seed, turns }) => println!(rt; "load {seed} {turns}{live}"),
        Ok(Form::Migrate) => println!(rt; "migrate{live}"),
        Ok(Form::Verify) => println!(rt; "verify{live}"),
        Ok(Form::Shrink { goal }) => println!(rt; "shrink {}{live}", goal.as_str()),
        Ok(Form::Audit { turns, workers }) => println!(rt; "audit {turns} {workers}{live}"),
        Err(WordsRefusal::NoForm) => println!(rt; "no form{live}"),
        Err(WordsRefusal::NoMemory) => println!(rt; "no memory{live}"),
    }
}

/// A line of the table.
pub(crate) fn put_case(rt: &HostRuntime, entry: &str) -> io::Result<()> {
    let words = words_of(rt.alloc(), entry)?;
    put_form(rt, words.as_slice())
}
