//! The lines of the input.
use crate::guest::Guest;
use nt_level::Level;
use std::alloc::{AllocError, Global};

/// What happens in the guest by a line of one word, and what the parts answer.
fn happen_by_word(alloc: Global, guest: &mut Guest, word: &str) -> Result<String, AllocError> {
    match word {
        "end" => format!(in alloc; "{}", guest.end()),
        "queue" => format!(in alloc; "{:?}", guest.queue()),
        "dispatch" => {
            let inserted = guest.dispatch();
            format!(in alloc; "{inserted:?}")
        }
        "wait" => format!(in alloc; "{:?}", guest.wait()),
        "release" => format!(in alloc; "{}", guest.release()),
        "resume" => format!(in alloc; "{:?}", guest.resume()),
        "off" => {
            guest.switch_off();
            String::from_str(alloc, "done")
        }
        _ => String::from_str(alloc, "no such line"),
    }
}

/// The same of a line of a word and a number.
fn happen_by_number(
    alloc: Global,
    guest: &mut Guest,
    word: &str,
    number: u32,
) -> Result<String, AllocError> {
    match (word, u8::try_from(number)) {
        ("set", _) => format!(in alloc; "{}", guest.set(number)),
        ("tick", _) => format!(in alloc; "{}", guest.tick(number)),
        ("apc", Ok(apc)) => format!(in alloc; "{:?}", guest.apc(apc)),
        ("interrupt", Ok(level)) => match Level::new(level) {
            Some(level) => format!(in alloc; "{}", guest.interrupt(level)),
            None => String::from_str(alloc, "no such level"),
        },
        _ => String::from_str(alloc, "no such line"),
    }
}

/// What happens in the guest by a line, and what the parts answer.
pub(crate) fn happen(alloc: Global, guest: &mut Guest, line: &str) -> Result<String, AllocError> {
    match line.split_once(' ') {
        None => happen_by_word(alloc, guest, line),
        Some((word, number)) => match number.parse::<u32>() {
            Ok(number) => happen_by_number(alloc, guest, word, number),
            Err(_) => String::from_str(alloc, "no such number"),
        },
    }
}
