//! The parts of a strict text: a script, and what stands behind it.
ghost use Rattle.std.specs.Prelude.{◌≡◌, ◌≤◌, ◌+◌, IfSome, length};
ghost use Rattle.nt_text.specs.declared.lines.TheConstants.{INPUT_LIMIT};
ghost use Rattle.nt_shown.specs.Parts.{behind, script_part};

use nt_script::{Split, split_at};

/// What may stand behind a script.
#[derive(Clone, Copy, PartialEq, Eq, Debug)]
pub enum Part {
    /// Expectations, which nothing but `ask` and `witness` reads.
    Expectations,
    /// A report of a run.
    Report,
    /// A schedule.
    Schedule,
}

/// What stands behind a script, and where it begins.
#[derive(Clone, Copy, PartialEq, Eq, Debug)]
pub struct Behind {
    pub part: Part,
    pub split: Split,
}

/// What stands behind the script of a strict text. None where nothing does.
pub fn behind_of(bytes: &[u8]) -> Option<Behind>
    requires { length bytes.now ≤ INPUT_LIMIT }
    ensures value { result ≡ behind bytes.now }
    ensures at { IfSome result (λ b. b.split.at ≤ length bytes.now) }
    ensures line { IfSome result
        (λ b. (1 ≤ b.split.line) × (b.split.line ≤ INPUT_LIMIT + 1)) }
{
    if let Some(split) = split_at(bytes, "expect") {
        return Some(Behind {
            part: Part::Expectations,
            split,
        });
    }
    if let Some(split) = split_at(bytes, "report") {
        return Some(Behind {
            part: Part::Report,
            split,
        });
    }
    match split_at(bytes, "schedule") {
        Some(split) => Some(Behind {
            part: Part::Schedule,
            split,
        }),
        None => None,
    }
}

/// The script of a strict text.
pub fn script_part(bytes: &[u8]) -> &[u8]
    requires { length bytes.now ≤ INPUT_LIMIT }
    ensures { result.now ≡ script_part bytes.now }
{
    match behind_of(bytes) {
        Some(behind) => &bytes[..behind.split.at],
        None => bytes,
    }
}
