//! What holds of every picture.
ghost use Rattle.std.specs.Prelude.{◌≡◌, ℕ, List, true};
ghost use Rattle.std.specs.List.{list_all};
ghost use Rattle.nt_draw.specs.Escapes.{is_plain_byte};
ghost use Rattle.nt_draw.specs.Tags.{escaped};

/// What is written of a text, whatever its bytes are, holds nothing that begins or ends a tag or a
/// value.
pub fn texts_hold_no_tags()
    ensures { (text : List ℕ) → list_all is_plain_byte (escaped text) ≡ true }
{}
