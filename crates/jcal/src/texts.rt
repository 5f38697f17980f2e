ghost use Rattle.std.specs.Prelude.{◌≡◌};
ghost use Rattle.recurrence.specs.Spellable.{IsSafe};

use std::str;

/// The bytes as a text.
#[tactic(auto, using(crate::proofs::SafeTexts::safe_is_utf8))]
pub(crate) fn safe_str(text: &[u8]) -> &str
    requires { IsSafe text.now }
    ensures { result.now ≡ text.now }
{
    unsafe { str::from_utf8_unchecked(text) }
}
