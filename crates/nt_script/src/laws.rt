//! Reading and printing undo each other.
ghost use Rattle.std.specs.Prelude.{◌≡◌, ℕ, ◌+◌, ◌++◌, List, None, Ok, Some, length, true};
ghost use Rattle.nt_text.specs.Lines.{AllRows, Row, lines, row_text, rows_text};
ghost use Rattle.nt_line.specs.declared.keywords.Keyword.TheVariants as keyword;
ghost use Rattle.nt_line.specs.Rows.{number_row};
ghost use Rattle.nt_line.specs.Keywords.{keyword_of};
ghost use Rattle.nt_script.specs.Reading.{reading};
ghost use Rattle.nt_script.specs.Text.{text};
ghost use Rattle.nt_script.specs.Versions.{migrated};
ghost use Rattle.nt_script.specs.Sound.{IsSound, IsTextOf};
ghost use Rattle.nt_script.specs.Splitting.{first_begins, split_from};
ghost use Rattle.nt_script.specs.declared.walk.Input.{Input};

/// What was printed is read as the input, and what was read has been a text of it.
pub fn texts_both_ways()
    // The text of a sound input is read as this input.
    ensures printed { (input : Input) → IsSound input → reading (text input) ≡ Ok input }

    // What is read as an input is the text of it, and the input is sound.
    ensures read { (bytes : List ℕ) (input : Input) → reading bytes ≡ Ok input →
        IsTextOf bytes input }
{}

/// What is migrated has one line more in its text, the first; what is of version 2 already stays as
/// it is.
pub fn migration_adds_one_line()
    ensures added { (i : Input) → i.version ≡ 1 →
        text (migrated i) ≡ row_text (number_row keyword.Version 2) ++ text i }
    ensures stays { (i : Input) → i.version ≡ 2 → migrated i ≡ i }
{}

/// A text is the text of one input: no two sound inputs have the same.
pub fn one_text()
    ensures { (a b : Input) → IsSound a → IsSound b → text a ≡ text b → a ≡ b }
{}

/// Lines behind the text of a script are found by the first field of their first line, where that
/// is no keyword of scripts of its version.
pub fn what_stands_behind_is_found()
    ensures { (word : List ℕ) (input : Input) (rows : List Row) →
        keyword_of input.version word ≡ None → IsSound input → AllRows rows →
        first_begins word (lines (rows_text rows)) ≡ true →
        split_from word 0 1 (lines (text input ++ rows_text rows))
        ≡ Some (length (text input), 1 + length (lines (text input))) }
{}
