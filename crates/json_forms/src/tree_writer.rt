//! Writes documents token by token. Each function appends the tokens of one tree, or of one member
//! of an object.
ghost use Rattle.std.specs.Prelude.{◌≡◌, ◌++◌, [], ◌∷◌, OnOk};
ghost use Rattle.std.specs.List.{AllByRecursion};
ghost use Rattle.json.specs.Token.{key as key_token, string as string_token};
ghost use Rattle.json.specs.Token.{number as number_token};
ghost use Rattle.serde_json.specs.Find.{of_integer};
ghost use Rattle.serde_json.specs.Written.{number_text};
ghost use Rattle.td_base.specs.Names.{IsPlain};
ghost use Rattle.td_civil.specs.Bounds.{IsWithinBounds};
ghost use Rattle.td_civil.specs.Calendar.{text_of};
ghost use Rattle.json_forms.specs.ListDocument.{strings};
ghost use Rattle.json_forms.specs.TreeTokens.{tree_tokens};

use crate::plain::plain_str;
use json::Writer;
use td_base::{Bytes, NoMemory};
use td_civil::{Moment, utc_text};

/// Writes a string.
pub(crate) fn put_text(out: &mut Writer, text: &[u8]) -> Result<(), NoMemory>
    requires { IsPlain text.now }
    ensures tokens { OnOk result (out.new.tokens ≡ out.old.tokens ++ string_token text.now ∷ []) }
    ensures before { out.new.before ≡ out.old.before }
{
    out.string(plain_str(text))?;
    Ok(())
}

/// Writes a member whose value is a string.
pub(crate) fn put_member(out: &mut Writer, name: &str, text: &[u8]) -> Result<(), NoMemory>
    requires { IsPlain text.now }
    ensures tokens { OnOk result
        (out.new.tokens ≡ out.old.tokens ++ key_token name.now ∷ string_token text.now ∷ []) }
    ensures before { out.new.before ≡ out.old.before }
{
    out.key(name)?;
    put_text(out, text)
}

/// Writes a member whose value is the text of a moment.
#[tactic(auto, using(crate::proofs::lemmas::PlainStamps::stamp_is_plain))]
pub(crate) fn put_moment(out: &mut Writer, name: &str, moment: Moment) -> Result<(), NoMemory>
    requires { IsWithinBounds moment.seconds }
    ensures tokens { OnOk result (out.new.tokens
        ≡ out.old.tokens ++ key_token name.now ∷ string_token (text_of moment.seconds) ∷ []) }
    ensures before { out.new.before ≡ out.old.before }
{
    put_member(out, name, &utc_text(moment))
}

/// Writes a member whose value is an integer.
#[tactic(auto, using(crate::proofs::Integers::integer_text))]
pub(crate) fn put_integer(out: &mut Writer, name: &str, n: i32) -> Result<(), NoMemory>
    ensures tokens { OnOk result (out.new.tokens
        ≡ out.old.tokens ++ key_token name.now ∷ number_token (number_text (of_integer n)) ∷ []) }
    ensures before { out.new.before ≡ out.old.before }
{
    out.key(name)?;
    out.i64(n as i64)?;
    Ok(())
}

/// Writes an array of strings.
#[tactic(auto, unfolding(crate::specs::ListDocument::strings))]
pub(crate) fn put_texts(out: &mut Writer, texts: &[Bytes]) -> Result<(), NoMemory>
    requires { AllByRecursion IsPlain texts.now }
    ensures tokens { OnOk result
        (out.new.tokens ≡ out.old.tokens ++ tree_tokens (strings texts.now)) }
    ensures before { out.new.before ≡ out.old.before }
{
    out.begin_array()?;
    for text in texts {
        put_text(out, text.as_slice())?;
    }
    out.end_array()?;
    Ok(())
}
