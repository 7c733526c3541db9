//! The two versions of texts: which one a text is of, the limit that depends on it, and the way
//! from the first to the second.
ghost use Rattle.std.specs.Prelude.{◌≡◌};
ghost use Rattle.nt_text.specs.Lines.{lines};
ghost use Rattle.nt_script.specs.Versions.{version_of, most_cpus, migrated};
ghost use Rattle.nt_script.specs.Sound.{IsSound};

use crate::walk::Input;
use nt_event::limits;
use nt_line::Keyword;
use nt_text::{Fields, Lines};

/// The version of a text: 2 where its first line begins with `version`, else 1.
pub fn version_of(bytes: &[u8]) -> u8
    ensures { result ≡ version_of (lines bytes.now) }
{
    match Lines::new(bytes).next() {
        Some(line) => {
            if Fields::new(line.bytes).take() == Keyword::Version.text() {
                2
            } else {
                1
            }
        }
        None => 1,
    }
}

/// The processors of a script of a version at most.
pub fn most_cpus(version: u8) -> u8
    ensures { result ≡ most_cpus version }
{
    if version >= 2 { limits::CPUS } else { 8 }
}

/// The same script and names in version 2. It takes no memory.
pub fn migrate(input: Input) -> Input
    ensures value { result ≡ migrated input }
    ensures sound { IsSound input → IsSound result }
{
    let Input {
        version: _,
        script,
        names,
    } = input;
    Input {
        version: 2,
        script,
        names,
    }
}
