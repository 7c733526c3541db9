//! Strict texts stay as they are, names are no levels, and fields and lines are found again.
ghost use Rattle.std.specs.Prelude.{◌≡◌, ◌≤◌, ◌++◌, ℕ, List, Ok, false, map, true};
ghost use Rattle.std.specs.List.{AllByRecursion};
ghost use Rattle.nt_text.specs.Fields.{is_name};
ghost use Rattle.nt_text.specs.Lines.{Row, line_of, lines, rows_text};
ghost use Rattle.nt_script.specs.declared.walk.Input.{Input};
ghost use Rattle.nt_script.specs.Reading.{reading};
ghost use Rattle.nt_script.specs.Sound.{IsSound};
ghost use Rattle.nt_script.specs.Text.{text};
ghost use Rattle.nt_event.specs.declared.commands.Command.{Command};
ghost use Rattle.nt_event.specs.declared.scripts.Isr.{Isr};
ghost use Rattle.nt_event.specs.Script.{command_fits};
ghost use Rattle.nt_line.specs.Fits.{HasRange};
ghost use Rattle.nt_line.specs.NameLists.{NameLists};
ghost use Rattle.nt_line.specs.Rows.{command_row, isr_row};
ghost use Rattle.nt_expect.specs.declared.expectations.Expectation.{Expectation};
ghost use Rattle.nt_expect.specs.Expectations.{ArePlain, ExpectationIsPlain, expectation_row};
ghost use Rattle.nt_expect.specs.Expectations.{expectations_text};
ghost use Rattle.nt_friendly.specs.declared.levels.Next.{Next};
ghost use Rattle.nt_friendly.specs.Fields.{bytes_at, field_places, friendly_fields};
ghost use Rattle.nt_friendly.specs.Levels.{is_left_out, strict_row, written};
ghost use Rattle.nt_friendly.specs.Named.{named_command, named_expectation, named_isr};
ghost use Rattle.nt_friendly.specs.Strict.{IsStrictRow};
ghost use Rattle.nt_friendly.specs.Text.{line_numbered, line_numbers, strict_text};

/// What is strict already means itself.
pub fn strict_texts_stay()
    // Lines of strict fields.
    ensures rows { (rows : List Row) → AllByRecursion IsStrictRow rows →
        strict_text (rows_text rows) ≡ rows_text rows }

    // What was made strict.
    ensures again { (bytes : List ℕ) → strict_text (strict_text bytes) ≡ strict_text bytes }

    // The text of a script.
    ensures printed { (input : Input) → IsSound input → strict_text (text input) ≡ text input }

    // The text of a script with that of expectations behind it.
    ensures asked { (input : Input) (es : List Expectation) → IsSound input → ArePlain input es →
        strict_text (text input ++ expectations_text input es)
        ≡ text input ++ expectations_text input es }

    // What the reader of scripts takes.
    ensures read { (bytes : List ℕ) (input : Input) → reading bytes ≡ Ok input →
        strict_text bytes ≡ bytes }
{}

/// Wherever a level stands in a script or in an expectation, its name may be written.
pub fn levels_may_be_named()
    ensures isrs { (names : NameLists) (isr : Isr) → isr.level ≤ 15 →
        strict_row (named_isr names isr) ≡ isr_row names isr }
    ensures commands { (input : Input) (c : Command) → IsSound input →
        command_fits input.script c ≡ true → HasRange c →
        strict_row (named_command input.names c) ≡ command_row input.names c }
    ensures expectations { (input : Input) (e : Expectation) → IsSound input →
        ExpectationIsPlain input e →
        strict_row (named_expectation input.names e) ≡ expectation_row input.names e }
{}

/// A name that a script may declare is written as it is, wherever it stands.
pub fn names_stay()
    ensures { (next : Next) (name behind : List ℕ) → is_name name ≡ true →
        (written next name ≡ name) × (is_left_out next name behind ≡ false) }
{}

/// The lines of a strict text are what the lines of these numbers mean, in this order.
pub fn each_line_has_its_number()
    ensures { (bytes : List ℕ) → lines (strict_text bytes)
        ≡ map (λ n. line_of (strict_row (friendly_fields (line_numbered bytes n))))
        (line_numbers bytes) }
{}

/// The bytes at the places of a line's fields are the fields.
pub fn fields_stand_at_their_places()
    ensures { (line : List ℕ) → map (bytes_at line) (field_places line) ≡ friendly_fields line }
{}
