//! Where another text begins behind a script.
ghost use Rattle.std.specs.Prelude.{◌≡◌, ◌≤◌, length, false, option_map, IfSome, IfNone};
ghost use Rattle.std.specs.List.{list_any};
ghost use Rattle.nt_text.specs.declared.lines.TheConstants.{INPUT_LIMIT};
ghost use Rattle.nt_text.specs.Lines.{lines};
ghost use Rattle.nt_script.specs.Splitting.{begins, split_from, Splits};

use nt_text::{Fields, Lines};

/// Where a line begins.
#[derive(Clone, Copy, PartialEq, Eq, Debug)]
pub struct Split {
    /// How many bytes stand before the line.
    pub at: usize,
    /// The line's number, counted from 1.
    pub line: u32,
}

/// The first line with this first field, found by its number and the bytes before it.
fn find_line(bytes: &[u8], keyword: &[u8]) -> Option<Split>
    requires { length bytes.now ≤ INPUT_LIMIT }
    ensures { option_map (λ s. (s.at, s.line)) result
        ≡ split_from keyword.now 0 1 (lines bytes.now) }
{
    let mut lines = Lines::new(bytes);
    let mut at: usize = 0;
    let mut number: u32 = 1;
    while let Some(line) = lines.next() {
        if Fields::new(line.bytes).take() == keyword {
            return Some(Split { at, line: number });
        }
        at += line.bytes.len() + 1;
        number += 1;
    }
    None
}

/// Where the first line begins whose first field is `keyword`. None exactly where there is no such
/// line.
pub fn split_at(bytes: &[u8], keyword: &str) -> Option<Split>
    requires { length bytes.now ≤ INPUT_LIMIT }
    ensures exact { option_map (λ s. (s.at, s.line)) result
        ≡ split_from keyword.now 0 1 (lines bytes.now) }
    ensures none { IfNone result (list_any (begins keyword.now) (lines bytes.now) ≡ false) }
    ensures some { IfSome result (λ s. Splits keyword.now bytes.now s.at s.line) }
{
    find_line(bytes, keyword.as_bytes())
}
