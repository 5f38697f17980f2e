ghost use Rattle.std.specs.Prelude.{◌≡◌};
ghost use Rattle.td_base.specs.Names.{IsPlain};

use std::str;

/// The bytes as a text.
#[tactic(auto, using(crate::proofs::lemmas::PlainUtf8::utf8_plain))]
pub(crate) fn plain_str(text: &[u8]) -> &str
    requires { IsPlain text.now }
    ensures { result.now ≡ text.now }
{
    unsafe { str::from_utf8_unchecked(text) }
}
