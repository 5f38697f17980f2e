//! Theorems about content lines, each the contract of a function with an empty body.
ghost use Rattle.std.specs.Prelude.{◌≡◌, ◌≤◌, ℕ, List, length, Ok, IsTrue};
ghost use Rattle.std.specs.List.{AllByRecursion, list_all};
ghost use Rattle.ical_lines.specs.Lines.{lines_written};
ghost use Rattle.ical_lines.specs.Unfolding.{cut_lines, unfolded, is_plain};

/// Lines without line feeds that do not begin with a blank are read back as they were written.
pub fn reads_back()
    ensures { (lines : List (List ℕ)) → IsTrue (list_all is_plain lines)
        → unfolded (lines_written lines) ≡ Ok lines }
{}

/// Each written line has at most 75 octets, without its CRLF.
pub fn lines_fit()
    ensures { (lines : List (List ℕ)) → IsTrue (list_all is_plain lines)
        → AllByRecursion (λ line. length line ≤ 77) (cut_lines (lines_written lines)) }
{}
