//! Writes properties token by token. Each function appends the tokens of one tree, or of a part of
//! one.
ghost use Rattle.std.specs.Prelude.{◌≡◌, [], ◌∷◌, ◌++◌, OnOk};
ghost use Rattle.json.specs.Token as token;
ghost use Rattle.serde_json.specs.Data.{string};
ghost use Rattle.recurrence.specs.Spellable.{IsSafe};
ghost use Rattle.jcal.specs.Tree.{string_property};
ghost use Rattle.jcal.specs.TreeTokens.{property_begin, tree_tokens};

use crate::texts::safe_str;
use json::Writer;
use td_base::NoMemory;

/// Writes a string.
pub(crate) fn put_text(out: &mut Writer, text: &[u8]) -> Result<(), NoMemory>
    requires { IsSafe text.now }
    ensures tokens { OnOk result (out.new.tokens ≡ out.old.tokens ++ token.string text.now ∷ []) }
    ensures before { out.new.before ≡ out.old.before }
{
    out.string(safe_str(text))?;
    Ok(())
}

/// Begins a property: its name, no parameters, and the type of its values.
pub(crate) fn begin_property(out: &mut Writer, name: &str, kind: &str) -> Result<(), NoMemory>
    ensures tokens { OnOk result
        (out.new.tokens ≡ out.old.tokens ++ property_begin name.now kind.now) }
    ensures before { out.new.before ≡ out.old.before }
{
    out.begin_array()?;
    out.string(name)?;
    out.begin_object()?;
    out.end_object()?;
    out.string(kind)?;
    Ok(())
}

/// Writes a property whose value is a string.
pub(crate) fn put_property(
    out: &mut Writer,
    name: &str,
    kind: &str,
    value: &[u8],
) -> Result<(), NoMemory>
    requires { IsSafe value.now }
    ensures tokens { OnOk result (out.new.tokens
        ≡ out.old.tokens ++ tree_tokens (string_property name.now kind.now value.now)) }
    ensures before { out.new.before ≡ out.old.before }
{
    begin_property(out, name, kind)?;
    put_text(out, value)?;
    out.end_array()?;
    Ok(())
}
