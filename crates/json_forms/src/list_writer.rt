ghost use Rattle.std.specs.Prelude.{◌≡◌, [], ◌∷◌, ◌++◌, List, ℕ, IfOk, OnOk, OnErr};
ghost use Rattle.std.specs.List.{AllByRecursion};
ghost use Rattle.td_base.specs.Names.{IsPlain};
ghost use Rattle.json_forms.specs.declared.zone_list.ListZone.{ListZone};
ghost use Rattle.json_forms.specs.AliasTokens.{alias_tokens};
ghost use Rattle.json_forms.specs.Begun.{IsListBegun};
ghost use Rattle.json_forms.specs.ListDocument.{zone_data, list_document};
ghost use Rattle.json_forms.specs.PlainTexts.{IsPlainZone};
ghost use Rattle.json_forms.specs.ToldZone.{told_zone};
ghost use Rattle.json_forms.specs.TreeTokens.{tree_tokens};

use crate::tree_writer::{put_member, put_moment, put_texts};
use crate::{ListZone, ZoneTexts};
use json::Writer;
use std::alloc::Global;
use std::marker::Model;
use td_base::{Bytes, NoMemory};

/// A list of time zones as JSON (RFC 7808, sections 5.2 and 6.2), while it is written zone by zone.
/// After `NoMemory` the bytes are no longer the beginning of a list.
#[derive(Drop)]
pub struct ListWriter {
    out: Writer,
}

impl Model for ListWriter {
    ghost use Rattle.json.specs.Written.{Written};

    ghost Value = { Written };

    ghost view = { λ w. w.out };
}

impl ListWriter {
    /// Begins the list with its synchronization token. It is appended to the given bytes.
    pub fn begin(before: Bytes, token: &[u8]) -> Result<ListWriter, NoMemory>
        requires { IsPlain token.now }
        ensures { IfOk result (IsListBegun before token.now []) }
    {
        let mut out = Writer::new(before.into_vec());
        out.begin_object()?;
        put_member(&mut out, "synctoken", token)?;
        out.key("timezones")?;
        out.begin_array()?;
        Ok(ListWriter { out })
    }

    /// Writes one more zone.
    pub fn zone(&mut self, zone: &ZoneTexts<'_>) -> Result<(), NoMemory>
        requires { IsPlainZone (told_zone zone.now) }
        ensures { (before token : List ℕ) (zones : List ListZone)
            → IsListBegun before token zones self.old
            → OnOk result (IsListBegun before token (zones ++ told_zone zone.now ∷ []) self.new) }
    {
        put_zone(&mut self.out, zone)?;
        Ok(())
    }

    /// Ends the list. Returns the given bytes, followed by the list.
    pub fn end(self) -> Result<Bytes, NoMemory>
        ensures { (before token : List ℕ) (zones : List ListZone)
            → IsListBegun before token zones self
            → IfOk result (λ text. text ≡ before ++ list_document token zones) }
    {
        let ListWriter { mut out } = self;
        out.end_array()?;
        out.end_object()?;
        Ok(Bytes::from(out.into_inner()))
    }
}

/// Appends the list of the zones as JSON, with its synchronization token (RFC 7808, sections 5.2
/// and 6.2).
pub fn list_text(
    alloc: Global,
    out: &mut Bytes,
    token: &[u8],
    zones: &[ListZone],
) -> Result<(), NoMemory>
    requires token { IsPlain token.now }
    requires zones { AllByRecursion IsPlainZone zones.now }
    ensures ok { OnOk result (out.new ≡ out.old ++ list_document token.now zones.now) }
    ensures err { OnErr result (out.new ≡ out.old) }
{
    let text = list_of(alloc, token, zones)?;
    out.append(text.as_slice())
}

/// The list of the zones.
fn list_of(alloc: Global, token: &[u8], zones: &[ListZone]) -> Result<Bytes, NoMemory>
    requires token { IsPlain token.now }
    requires zones { AllByRecursion IsPlainZone zones.now }
    ensures { IfOk result (λ text. text ≡ list_document token.now zones.now) }
{
    let mut list = ListWriter::begin(Bytes::new(alloc), token)?;
    for zone in zones {
        list.zone(&zone.texts())?;
    }
    list.end()
}

/// Writes one zone.
#[tactic(auto, unfolding(crate::specs::ListDocument::zone_data))]
fn put_zone(out: &mut Writer, zone: &ZoneTexts<'_>) -> Result<(), NoMemory>
    requires { IsPlainZone (told_zone zone.now) }
    ensures tokens { OnOk result
        (out.new.tokens ≡ out.old.tokens ++ tree_tokens (zone_data (told_zone zone.now))) }
    ensures before { out.new.before ≡ out.old.before }
{
    out.begin_object()?;
    put_aliases(out, zone.aliases)?;
    put_member(out, "etag", zone.etag)?;
    put_moment(out, "last-modified", zone.stamp)?;
    put_member(out, "publisher", zone.publisher)?;
    put_member(out, "tzid", zone.tzid)?;
    put_member(out, "version", zone.version)?;
    out.end_object()?;
    Ok(())
}

/// Writes the member of the aliases, if there are any.
fn put_aliases(out: &mut Writer, aliases: &[Bytes]) -> Result<(), NoMemory>
    requires { AllByRecursion IsPlain aliases.now }
    ensures tokens { OnOk result (out.new.tokens ≡ out.old.tokens ++ alias_tokens aliases.now) }
    ensures before { out.new.before ≡ out.old.before }
{
    if aliases.is_empty() {
        return Ok(());
    }
    out.key("aliases")?;
    put_texts(out, aliases)
}
