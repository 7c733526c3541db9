//! A text has one schedule, and a schedule one text; its lines are read as it, and only they.
ghost use Rattle.std.specs.Prelude.{◌≡◌, ◌≤◌, ℕ, Bool, List, Ok, map};
ghost use Rattle.nt_text.specs.Lines.{line_of};
ghost use Rattle.nt_event.specs.declared.limits.TheConstants.{CPUS};
ghost use Rattle.nt_script.specs.Sound.{IsSound};
ghost use Rattle.nt_log.specs.Reading.{start, walk};
ghost use Rattle.nt_log.specs.Schedules.{AreBelow, IsPlain, IsTextOf, schedule_rows};
ghost use Rattle.nt_log.specs.declared.schedules.Schedule.{Schedule};
ghost use Rattle.nt_script.specs.declared.walk.Input.{Input};

/// For the script of an input, a schedule has one text, and a text is that of one schedule.
pub fn texts_are_schedules()
    ensures one_text { (input : Input) (s : Schedule) (a b : List ℕ) → IsTextOf a input s →
        IsTextOf b input s → a ≡ b }
    ensures one_schedule { (bytes : List ℕ) (input : Input) (s r : Schedule) →
        IsTextOf bytes input s → IsTextOf bytes input r → s ≡ r }
{}

/// The lines of a schedule are read as it, from whichever number on, and what is read as a schedule
/// is the lines of it.
///
/// Processors are below `cpus`: the greatest count of processors in a schedule that stands alone,
/// the script's in a report.
pub fn schedules_both_ways()
    // What is read is a schedule that a text may have, of processors below `cpus`, and the lines
    // are those of its rows.
    ensures read { (cpus n : ℕ) (input : Input) (ls : List (List ℕ × Bool)) (s : Schedule) →
        cpus ≤ CPUS → IsSound input →
        walk cpus input start n ls ≡ Ok s →
        (ls ≡ map line_of (schedule_rows input.names s)) × IsPlain input s × AreBelow cpus s.list }

    // The lines of such a schedule's rows are read as this schedule.
    ensures printed { (cpus n : ℕ) (input : Input) (s : Schedule) → IsSound input →
        IsPlain input s → AreBelow cpus s.list →
        walk cpus input start n (map line_of (schedule_rows input.names s)) ≡ Ok s }
{}
