//! A text has one history, and a history one text, whichever version the script's text has.
ghost use Rattle.std.specs.Prelude.{◌≡◌, ℕ, List};
ghost use Rattle.nt_event.specs.declared.events.History.{History};
ghost use Rattle.nt_print.specs.Conditions.{IsReportOf};
ghost use Rattle.nt_print.specs.Report.{report_text};
ghost use Rattle.nt_script.specs.declared.walk.Input.{Input};

/// For the script of an input, a history has one report, and a text is the report of one history.
pub fn reports_are_histories()
    ensures one_text { (input : Input) (h : History) (a b : List ℕ) → IsReportOf a input h →
        IsReportOf b input h → a ≡ b }
    ensures one_history { (bytes : List ℕ) (input : Input) (h g : History) →
        IsReportOf bytes input h → IsReportOf bytes input g → h ≡ g }
{}

/// A report doesn't tell the version of the script's text: inputs that differ in it alone have the
/// same report for each history.
pub fn reports_have_no_version()
    ensures { (version : ℕ) (input : Input) (h : History) →
        report_text (record input { version = version }) h ≡ report_text input h }
{}
