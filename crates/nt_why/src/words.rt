//! The words by which a thing of a script is named.
ghost use Rattle.std.specs.Prelude.{◌≡◌};
ghost use Rattle.nt_why.specs.Words.{bare as bare_in, read_interrupt_words, read_words};

use crate::fates::Object;
use crate::things::Thing;
use nt_line::fields;
use nt_script::Input;
use nt_text::is_word;

/// The thing that two words name: `dpc NAME`, `apc NAME`, `thread NAME` or `timer NAME`; None
/// exactly where they name none of the input's script.
pub fn read_thing(input: &Input, kind: &[u8], name: &[u8]) -> Option<Thing>
    ensures { result ≡ read_words input.now.names kind.now name.now }
{
    if is_word(kind, b"dpc") {
        return match fields::dpc(&input.names, name) {
            Ok(dpc) => Some(Thing::Object(Object::Dpc(dpc))),
            Err(_) => None,
        };
    }
    if is_word(kind, b"apc") {
        return match fields::apc(&input.names, name) {
            Ok(apc) => Some(Thing::Object(Object::Apc(apc))),
            Err(_) => None,
        };
    }
    if is_word(kind, b"thread") {
        return match fields::thread(&input.names, name) {
            Ok(thread) => Some(Thing::Thread(thread)),
            Err(_) => None,
        };
    }
    if is_word(kind, b"timer") {
        return match fields::timer(&input.names, name) {
            Ok(timer) => Some(Thing::Timer(timer)),
            Err(_) => None,
        };
    }
    None
}

/// The number of a processor, without a `p` before it.
fn bare(word: &[u8]) -> &[u8]
    ensures { result.now ≡ bare_in word.now }
{
    match word.split_first() {
        Some((first, rest)) => { if *first == b'p' { rest } else { word } }
        None => word,
    }
}

/// The interrupt that two words name: a processor of the input's script, as `1` or `p1`, and a
/// level that an interrupt may have, 3 to 11, 13 or 14; None exactly where they name none.
pub fn read_interrupt(input: &Input, cpu: &[u8], level: &[u8]) -> Option<Thing>
    ensures { result ≡ read_interrupt_words input.now.script.cpus cpu.now level.now }
{
    match fields::cpu(input.script.cpus, bare(cpu)) {
        Ok(p) => match fields::isr_level(level) {
            Ok(level) => Some(Thing::Interrupt(p, level)),
            Err(_) => None,
        },
        Err(_) => None,
    }
}
