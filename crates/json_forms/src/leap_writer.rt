ghost use Rattle.std.specs.Prelude.{◌≡◌, ◌++◌, [], ◌∷◌, map, IfOk, OnOk, OnErr};
ghost use Rattle.std.specs.List.{AllByRecursion};
ghost use Rattle.json.specs.Token.{key as key_token, string as string_token};
ghost use Rattle.serde_json.specs.Data.{array};
ghost use Rattle.serde_json.specs.View.{items_of};
ghost use Rattle.td_base.specs.Names.{IsPlain};
ghost use Rattle.td_civil.specs.Bounds.{IsWithinBounds};
ghost use Rattle.json_forms.specs.LeapDocument.{start_of_day, date_text_of, step_data, leap_data};
ghost use Rattle.json_forms.specs.LeapDocument.{leap_document, IsDatedStep, IsPlainTable};
ghost use Rattle.json_forms.specs.TreeTokens.{tree_tokens};

use crate::tree_writer::{put_integer, put_member};
use catalogue::{LeapStep, Leaps};
use json::Writer;
use std::alloc::Global;
use td_base::{Bytes, NoMemory};
use td_civil::{Moment, utc_text};

/// Appends the table of leap seconds as JSON (RFC 7808, section 6.4), with the publisher and the
/// version of its release.
pub fn leap_text(
    alloc: Global,
    out: &mut Bytes,
    leaps: &Leaps,
    publisher: &[u8],
    version: &[u8],
) -> Result<(), NoMemory>
    requires leaps { IsPlainTable leaps.now }
    requires publisher { IsPlain publisher.now }
    requires version { IsPlain version.now }
    ensures ok { OnOk result
        (out.new ≡ out.old ++ leap_document leaps.now publisher.now version.now) }
    ensures err { OnErr result (out.new ≡ out.old) }
{
    let text = table_of(alloc, leaps, publisher, version)?;
    out.append(text.as_slice())
}

/// The document.
fn table_of(
    alloc: Global,
    leaps: &Leaps,
    publisher: &[u8],
    version: &[u8],
) -> Result<Bytes, NoMemory>
    requires leaps { IsPlainTable leaps.now }
    requires publisher { IsPlain publisher.now }
    requires version { IsPlain version.now }
    ensures { IfOk result (λ text. text ≡ leap_document leaps.now publisher.now version.now) }
{
    let mut out = Writer::new(Vec::new(alloc));
    put_table(&mut out, leaps, publisher, version)?;
    Ok(Bytes::from(out.into_inner()))
}

/// Writes the table.
fn put_table(
    out: &mut Writer,
    leaps: &Leaps,
    publisher: &[u8],
    version: &[u8],
) -> Result<(), NoMemory>
    requires leaps { IsPlainTable leaps.now }
    requires publisher { IsPlain publisher.now }
    requires version { IsPlain version.now }
    ensures tokens { OnOk result (out.new.tokens
        ≡ out.old.tokens ++ tree_tokens (leap_data leaps.now publisher.now version.now)) }
    ensures before { out.new.before ≡ out.old.before }
{
    out.begin_object()?;
    put_member(out, "expires", leaps.expires.as_slice())?;
    out.key("leapseconds")?;
    put_steps(out, leaps.steps.as_slice())?;
    put_member(out, "publisher", publisher)?;
    put_member(out, "version", version)?;
    out.end_object()?;
    Ok(())
}

/// Writes the array of the steps.
fn put_steps(out: &mut Writer, steps: &[LeapStep]) -> Result<(), NoMemory>
    requires { AllByRecursion IsDatedStep steps.now }
    ensures tokens { OnOk result (out.new.tokens
        ≡ out.old.tokens ++ tree_tokens (array (items_of (map step_data steps.now)))) }
    ensures before { out.new.before ≡ out.old.before }
{
    out.begin_array()?;
    for step in steps {
        put_step(out, *step)?;
    }
    out.end_array()?;
    Ok(())
}

/// Writes one step.
#[tactic(auto, unfolding(crate::specs::LeapDocument::step_data))]
fn put_step(out: &mut Writer, step: LeapStep) -> Result<(), NoMemory>
    requires { IsDatedStep step }
    ensures tokens { OnOk result (out.new.tokens ≡ out.old.tokens ++ tree_tokens (step_data step)) }
    ensures before { out.new.before ≡ out.old.before }
{
    out.begin_object()?;
    put_date(out, "onset", step.day)?;
    put_integer(out, "utc-offset", step.offset)?;
    out.end_object()?;
    Ok(())
}

/// Writes a member whose value is a date. The day is counted from 1970-01-01.
#[tactic(auto, using(crate::proofs::lemmas::PlainStamps::date_is_plain))]
fn put_date(out: &mut Writer, name: &str, day: i64) -> Result<(), NoMemory>
    requires { IsWithinBounds (start_of_day day) }
    ensures tokens { OnOk result (out.new.tokens
        ≡ out.old.tokens ++ key_token name.now ∷ string_token (date_text_of day) ∷ []) }
    ensures before { out.new.before ≡ out.old.before }
{
    let start = Moment {
        seconds: day * 86_400,
    };
    put_member(out, name, &utc_text(start)[..10])
}
