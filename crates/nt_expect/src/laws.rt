//! A text has one list of expectations, and a list one text; its lines are read as it, and only
//! they. No reply that a command may give is refused.
ghost use Rattle.std.specs.Prelude.{◌≡◌, ℕ, Bool, List, Ok, map};
ghost use Rattle.nt_text.specs.Lines.{line_of};
ghost use Rattle.nt_script.specs.Sound.{IsSound};
ghost use Rattle.nt_script.specs.declared.walk.Input.{Input};
ghost use Rattle.nt_expect.specs.declared.expectations.Expectation.{Expectation};
ghost use Rattle.nt_expect.specs.Expectations.{ArePlain, IsTextOf, expectation_rows};
ghost use Rattle.nt_expect.specs.Reading.{start, walk};
ghost use Rattle.nt_expect.specs.Replies.{RefusalsMayBe, RepliesMayBe};

/// For the script of an input, a list of expectations has one text, and a text is that of one list.
pub fn texts_are_expectations()
    ensures one_text { (input : Input) (es : List Expectation) (a b : List ℕ) →
        IsTextOf a input es → IsTextOf b input es → a ≡ b }
    ensures one_list { (bytes : List ℕ) (input : Input) (es fs : List Expectation) →
        IsTextOf bytes input es → IsTextOf bytes input fs → es ≡ fs }
{}

/// The lines of expectations are read as these, from whichever number on, and what is read as
/// expectations is the lines of them.
pub fn expectations_both_ways()
    // What is read are expectations that a text may have, and the lines are those of their rows.
    ensures read { (n : ℕ) (input : Input) (ls : List (List ℕ × Bool)) (es : List Expectation) →
        IsSound input → walk input start n ls ≡ Ok es →
        (ls ≡ map line_of (expectation_rows input.names es)) × ArePlain input es }

    // The lines of such rows are read as these expectations.
    ensures printed { (n : ℕ) (input : Input) (es : List Expectation) → IsSound input →
        ArePlain input es →
        walk input start n (map line_of (expectation_rows input.names es)) ≡ Ok es }
{}

/// A command gives only replies that an expectation may name of it.
pub fn replies_may_be_expected()
    // Whatever it replies where it is not refused.
    ensures replies { RepliesMayBe }

    // `refused`, where it is refused anywhere.
    ensures refusals { RefusalsMayBe }
{}
