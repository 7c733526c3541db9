//! Words and numbers.
use nt_event::{ApcKind, Importance, Level, Mode};
use nt_text::put_digits;
use std::alloc::AllocError;

/// Adds texts, one behind another.
pub(crate) fn put(out: &mut Vec<u8>, texts: &[&str]) -> Result<(), AllocError> {
    for text in texts {
        out.extend_from_slice(text.as_bytes())?;
    }
    Ok(())
}

/// Adds words and a number behind them.
pub(crate) fn put_numbered(out: &mut Vec<u8>, words: &str, number: u64) -> Result<(), AllocError> {
    put(out, &[words])?;
    put_digits(out, number)
}

/// Adds a level by its name: those of devices are DIRQL and a number of 3 to 11.
pub(crate) fn put_level(out: &mut Vec<u8>, level: Level) -> Result<(), AllocError> {
    if level.is_device() {
        put_numbered(out, "DIRQL ", u64::from(level.number()))
    } else {
        put(out, &[level.name()])
    }
}

/// Adds what is asked for in a request class. An interrupt's class is the number of its level.
pub(crate) fn put_class(out: &mut Vec<u8>, class: u8) -> Result<(), AllocError> {
    match class {
        0 => put(out, &["threaded dpc"]),
        1 => put(out, &["kernel apc"]),
        2 => put(out, &["dispatch"]),
        12 => put(out, &["lock release"]),
        13 => put(out, &["clock interrupt"]),
        14 => put(out, &["IPI"]),
        _ => put_numbered(out, "interrupt ", u64::from(class)),
    }
}

/// The word of an APC object's kind.
pub(crate) fn kind_word(kind: ApcKind) -> &'static str {
    match kind {
        ApcKind::Special => "special",
        ApcKind::Normal => "normal",
        ApcKind::User => "user",
    }
}

/// The word of an importance.
pub(crate) fn importance_word(importance: Importance) -> &'static str {
    match importance {
        Importance::Low => "low",
        Importance::Medium => "medium",
        Importance::MediumHigh => "mediumhigh",
        Importance::High => "high",
    }
}

/// The word of a mode.
pub(crate) fn mode_word(mode: Mode) -> &'static str {
    match mode {
        Mode::Kernel => "kernel",
        Mode::User => "user",
    }
}

/// Whether a wait can be alerted, in a word.
pub(crate) fn alertable_word(alertable: bool) -> &'static str {
    if alertable { "alertable" } else { "plain" }
}
