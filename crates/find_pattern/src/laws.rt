//! Theorems about patterns, each the contract of a function with an empty body.
ghost use Rattle.std.specs.Prelude.{◌≡◌, Ok, IsTrue};
ghost use Rattle.find_pattern.specs.declared.pattern_type.Pattern.{Pattern};
ghost use Rattle.find_pattern.specs.Patterns.{pattern};
ghost use Rattle.find_pattern.specs.Spelling.{pattern_text, is_spelled};

/// The text of a pattern is read as that pattern.
pub fn reads_back()
    ensures { (p : Pattern) → IsTrue (is_spelled p.lead p.trail p.text)
        → pattern (pattern_text p) ≡ Ok p }
{}
