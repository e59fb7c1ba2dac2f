//! Laws of commands, each the contract of a function that does nothing.
ghost use Rattle.std.specs.Prelude.{◌≡◌, ◌<◌, ℕ, List, All};
ghost use Rattle.cfdp_report.specs.Report.Name.{name_text};
ghost use Rattle.cfdp_control.specs.Asking.{named_by};

/// A word that is a name as a report prints it stands for that name, whatever octets that has.
pub fn a_printed_name_is_read_as_itself()
    ensures { (name : List ℕ) → All (λ octet. octet < 256) name
        → named_by (name_text name) ≡ name }
{}
