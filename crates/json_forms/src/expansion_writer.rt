ghost use Rattle.std.specs.Prelude.{◌≡◌, [], ◌∷◌, ◌++◌, List, ℕ, ℤ, IfOk, OnOk, OnErr};
ghost use Rattle.std.specs.List.{AllByRecursion};
ghost use Rattle.td_base.specs.Names.{IsPlain};
ghost use Rattle.td_civil.specs.Bounds.{IsWithinBounds};
ghost use Rattle.td_civil.specs.declared.local_time.Observance.{Observance};
ghost use Rattle.json_forms.specs.Begun.{Appends, IsExpansionBegun};
ghost use Rattle.json_forms.specs.ExpansionDocument.{expansion_document};
ghost use Rattle.json_forms.specs.PlainTexts.{IsPlainObservance};

use crate::ObservanceText;
use crate::tree_writer::{put_member, put_moment};
use json::Writer;
use std::alloc::Global;
use std::marker::Model;
use td_base::{Bytes, NoMemory};
use td_civil::{Moment, Observance};

/// A JSON document of a zone's observances in a range (RFC 7808, sections 5.4 and 6.3), while it is
/// written one observance at a time. After `NoMemory` the bytes are no longer the beginning of such
/// a document.
#[derive(Drop)]
pub struct ExpansionWriter {
    out: Bytes,
    /// Whether a value was written last, so that a comma comes before the next one.
    after_value: bool,
}

impl Model for ExpansionWriter {
    ghost use Rattle.json_forms.specs.Begun.{TextSoFar};

    ghost Value = { TextSoFar };

    ghost view = { λ w. record { text = w.out; after_value = w.after_value } };
}

impl ExpansionWriter {
    /// Begins the document of a range with this end. It is appended to the given bytes.
    pub fn begin(before: Bytes, until: Moment) -> Result<ExpansionWriter, NoMemory>
        requires { IsWithinBounds until.seconds }
        ensures { IfOk result (IsExpansionBegun before until.seconds []) }
    {
        let mut out = Writer::new(before.into_vec());
        out.begin_object()?;
        put_moment(&mut out, "end", until)?;
        out.key("observances")?;
        out.begin_array()?;
        Ok(ExpansionWriter {
            out: Bytes::from(out.into_inner()),
            after_value: false,
        })
    }

    /// Writes one more observance.
    pub fn write(&mut self, observance: &ObservanceText) -> Result<(), NoMemory>
        ensures { OnOk result (Appends self.old self.new (observance.now ∷ [])) }
    {
        observance.put(&mut self.out, self.after_value)?;
        self.after_value = true;
        Ok(())
    }

    /// Ends the document with the zone's name as requested and the start of the range. Returns the
    /// given bytes, followed by the document.
    pub fn end(self, tzid: &[u8], from: Moment) -> Result<Bytes, NoMemory>
        requires tzid { IsPlain tzid.now }
        requires from { IsWithinBounds from.seconds }
        ensures { (before : List ℕ) (until : ℤ) (observances : List Observance)
            → IsExpansionBegun before until observances self
            → IfOk result
            (λ text. text ≡ before ++ expansion_document tzid.now from.seconds until observances) }
    {
        let ExpansionWriter { out, .. } = self;
        let mut out = Writer::new(out.into_vec());
        out.end_array()?;
        put_moment(&mut out, "start", from)?;
        put_member(&mut out, "tzid", tzid)?;
        out.end_object()?;
        Ok(Bytes::from(out.into_inner()))
    }
}

/// Appends the observances of a time zone from one moment to another as JSON (RFC 7808, section
/// 6.3). The zone is named as it was requested.
pub fn expand_text(
    alloc: Global,
    out: &mut Bytes,
    tzid: &[u8],
    from: Moment,
    until: Moment,
    observances: &[Observance],
) -> Result<(), NoMemory>
    requires tzid { IsPlain tzid.now }
    requires from { IsWithinBounds from.seconds }
    requires until { IsWithinBounds until.seconds }
    requires observances { AllByRecursion IsPlainObservance observances.now }
    ensures ok { OnOk result (out.new ≡ out.old
        ++ expansion_document tzid.now from.seconds until.seconds observances.now) }
    ensures err { OnErr result (out.new ≡ out.old) }
{
    let text = expansion_of(alloc, tzid, from, until, observances)?;
    out.append(text.as_slice())
}

/// The document.
fn expansion_of(
    alloc: Global,
    tzid: &[u8],
    from: Moment,
    until: Moment,
    observances: &[Observance],
) -> Result<Bytes, NoMemory>
    requires tzid { IsPlain tzid.now }
    requires from { IsWithinBounds from.seconds }
    requires until { IsWithinBounds until.seconds }
    requires observances { AllByRecursion IsPlainObservance observances.now }
    ensures { IfOk result
        (λ text. text ≡ expansion_document tzid.now from.seconds until.seconds observances.now) }
{
    let mut expansion = ExpansionWriter::begin(Bytes::new(alloc), until)?;
    for observance in observances {
        expansion.write(&ObservanceText::new(observance.copy()))?;
    }
    expansion.end(tzid, from)
}
