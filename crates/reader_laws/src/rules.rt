//! The law of the words of a rule, as the contract of a function that does nothing.
ghost use Rattle.std.specs.Prelude.{◌≡◌, List, ℕ, Some};
ghost use Rattle.vtimezone_reader.specs.RuleWords.{recur_in};
ghost use Rattle.vtimezone_reader.specs.declared.rule_words.Recur.{Recur};
ghost use Rattle.reader_laws.specs.Words.{HasWords};

/// A rule that is read repeats each year: each of its words for the interval is `INTERVAL=1`.
pub fn rules_have_no_interval()
    ensures { (text : List ℕ) (r : Recur) → recur_in text ≡ Some r → HasWords text }
{}
