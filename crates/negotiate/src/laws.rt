//! A theorem about the choice, the contract of a function with an empty body.
ghost use Rattle.std.specs.Prelude.{◌≡◌, [], ◌∷◌, ℕ, List, Option, IfSome};
ghost use Rattle.negotiate.specs.Choices.{IsUnnamed, calendar_format, chosen_among, chosen_format};
ghost use Rattle.negotiate.specs.Choices.{file_format, json_format};

/// Without an Accept field, or without an element that matches calendars as JSON, the choice is the
/// same as among the other formats.
pub fn unnamed_is_not_chosen()
    ensures { (accept : Option (List ℕ)) → IfSome accept (λ field. IsUnnamed field json_format)
        → chosen_format accept ≡ chosen_among (calendar_format ∷ file_format ∷ []) accept }
{}
