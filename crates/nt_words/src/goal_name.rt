//! The name of what a schedule has to deliver.
ghost use Rattle.std.specs.Prelude.{◌≡◌};
ghost use Rattle.nt_text.specs.Fields.{name_of};

use arrayvec::ArrayString;
use nt_text::name;
use std::marker::Model;

/// The name of a DPC or APC object: 1 to 16 of a to z, 0 to 9 and `_`. Contracts see its bytes.
#[derive(Debug, Drop)]
pub struct GoalName {
    text: ArrayString<16>,
}

impl Model for GoalName {
    ghost use Rattle.std.specs.Prelude.{List, ℕ};

    ghost Value = { List ℕ };

    ghost view = { λ a. a.text.bytes };
}

impl GoalName {
    ghost use Rattle.std.specs.Prelude.{◌≡◌};
    ghost use Rattle.nt_text.specs.Fields.{name_of};

    /// The name that a text is. None exactly where it is no name.
    pub fn new(text: &str) -> Option<GoalName>
        ensures { result ≡ name_of text.now }
    {
        match ArrayString::from(name(text.as_bytes())?) {
            Ok(text) => Some(GoalName { text }),
            Err(_) => None,
        }
    }

    /// The name as it is written.
    pub fn as_str(&self) -> &str
        ensures { result.now ≡ self.now }
    {
        self.text.as_str()
    }
}
