//! Why a text is not taken as expectations.
ghost use Rattle.std.specs.Prelude.{◌≡◌};
ghost use Rattle.nt_expect.specs.Kinds.{expect_number, expect_name};

use nt_text::ScriptKind;
use std::alloc::AllocError;

/// What is wrong with a line.
#[derive(Clone, Copy, PartialEq, Eq, Debug)]
pub enum ExpectKind {
    /// What may be wrong with a line of any text.
    Line(ScriptKind),
    /// The line is one expectation too many.
    TooMany,
}

impl ExpectKind {
    /// Its number in the line of a refused text, 1 to 12.
    pub fn number(self) -> u8
        ensures { result ≡ expect_number self }
    {
        match self {
            ExpectKind::Line(kind) => kind.number(),
            ExpectKind::TooMany => 10,
        }
    }

    /// Its name in the line of a refused text.
    pub fn name(self) -> &'static str
        ensures { result.now ≡ expect_name self }
    {
        match self {
            ExpectKind::Line(kind) => kind.name(),
            ExpectKind::TooMany => "TooMany expectations",
        }
    }
}

/// Why a text is not taken.
#[derive(Clone, Copy, PartialEq, Eq, Debug)]
pub enum ExpectRefusal {
    /// The least bad line, by its number in the whole input, and what is wrong with it.
    Bad { line: u32, kind: ExpectKind },
    /// No memory is left.
    NoMemory,
}

/// Why a line is not taken.
#[derive(Debug, Drop)]
pub(crate) enum ExpectStop {
    /// No memory is left.
    NoMemory,
    /// The line is bad.
    Bad(ExpectKind),
}

impl From<AllocError> for ExpectStop {
    ghost use Rattle.std.specs.Prelude.{◌≡◌};
    ghost use Rattle.nt_expect.specs.declared.refusals.ExpectStop.TheVariants.{NoMemory};

    ghost from_gives = { λ _ e. e ≡ NoMemory };

    fn from(_e: AllocError) -> ExpectStop {
        ExpectStop::NoMemory
    }
}

impl From<ScriptKind> for ExpectStop {
    ghost use Rattle.std.specs.Prelude.{◌≡◌};
    ghost use Rattle.nt_expect.specs.declared.refusals.ExpectKind.TheVariants.{Line};
    ghost use Rattle.nt_expect.specs.declared.refusals.ExpectStop.TheVariants.{Bad};

    ghost from_gives = { λ kind e. e ≡ Bad (Line kind) };

    fn from(kind: ScriptKind) -> ExpectStop {
        ExpectStop::Bad(ExpectKind::Line(kind))
    }
}
