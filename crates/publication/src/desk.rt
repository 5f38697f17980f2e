ghost use Rattle.std.specs.Prelude.{◌≡◌, ◌+◌, ◌≤◌, length, map, max, true, option_map};
ghost use Rattle.std.specs.Prelude.{Some, None, IfSome, MatchOption, OnOk, OnErr};
ghost use mathlib.Core.List.{IsPrefix};
ghost use Rattle.left_right.specs.Sides.{view};
ghost use Rattle.publication.specs.declared.view.SeatRole.TheVariants.{Desk as AtDesk};
ghost use Rattle.std.specs.List.{last_or};
ghost use Rattle.publication.specs.Histories.{values, ended_in};
ghost use Rattle.publication.specs.ShownRule.{home_of};
ghost use Rattle.publication.specs.ShownRule.{told_of};
ghost use Rattle.publication.specs.Entering.{HasEntered};

use crate::edition::Edition;
use crate::history::{Prefix, are_of_one};
use crate::receipt::Receipt;
use crate::rule::{DeskReader, Entering};
use crate::shown::Shown;
use std::marker::Model;
use td_base::{NoMemory, Value};

/// The reader handle of one thread. It holds the last value that it has seen.
#[derive(Drop)]
pub struct Desk<V: Value> {
    // `None` only while the desk enters.
    reader: Option<DeskReader<V>>,
    held: Edition<V>,
}

impl<V: Value> Model for Desk<V> {
    ghost use Rattle.std.specs.Prelude.{◌≡◌, [], IsSomeAnd};
    ghost use Rattle.std.specs.Option.{option_map_or};
    ghost use Rattle.publication.specs.declared.view.SeatRole.TheVariants.{Desk as AtDesk};
    ghost use Rattle.publication.specs.Histories.{values, ended_in};
    ghost use Rattle.publication.specs.ShownRule.{home_of};
    ghost use Rattle.publication.specs.Views.{DeskView};

    ghost Value = { DeskView V };

    ghost view = { λ d. record {
      pair = d.held.prefix.book;
      seen = values d.held.prefix.log;
      ended = ended_in d.held.prefix.log;
      entered = option_map_or (λ r. r.place.me.0.client.list) d.reader [];
      enters = option_map_or (λ r. r.place.me.0.client.enters) d.reader 0;
    } };

    ghost invariant = { λ d. IsSomeAnd d.reader (λ r.
        (r.place.me.0.client.role ≡ AtDesk)
        × (r.place.me.0.client.home ≡ home_of d.held.prefix.book)) };
}

/// The result of one enter: the history up to the shown edition and the number of its values.
/// `edition` is a copy of it, unless the copy was refused.
#[derive(Drop)]
pub struct Found<V: Value> {
    pub prefix: Prefix<V>,
    pub number: u32,
    pub edition: Option<Edition<V>>,
}

// Copies the shown edition. Only the copy of the value's `Arc` may be refused.
fn copy_shown<V: Value>(shown: &Shown<V>) -> Option<Found<V>>
    ensures { MatchOption result
        (option_map (λ i. told_of (values i.prefix.log) (home_of i.prefix.book)) shown.now.edition
        ≡ None)
        (λ f. (option_map (λ i. told_of (values i.prefix.log) (home_of i.prefix.book))
        shown.now.edition ≡ Some (told_of (values f.prefix.log) (home_of f.prefix.book)))
        × (f.number ≡ length (values f.prefix.log))
        × IfSome f.edition (λ i. i.prefix ≡ f.prefix)) }
{
    match &shown.edition {
        None => None,
        Some(edition) => Some(Found {
            prefix: edition.prefix.again(),
            number: edition.number,
            edition: edition.again().ok(),
        }),
    }
}

// One enter: takes the shown edition, copies it and leaves. `None` if the enter is refused.
fn enter_once<V: Value>(reader: DeskReader<V>) -> (DeskReader<V>, Option<Found<V>>)
    requires { (view reader.place).role ≡ AtDesk }
    ensures { MatchOption result.1
        (view result.0.place ≡ view reader.place)
        (λ f. HasEntered (view reader.place) (home_of f.prefix.book) (values f.prefix.log)
        (view result.0.place)
        × (f.number ≡ length (values f.prefix.log))
        × IfSome f.edition (λ i. i.prefix ≡ f.prefix)) }
{
    match reader.enter_as::<Entering>() {
        Err(reader) => (reader, None),
        Ok(reading) => {
            let found = copy_shown(reading.get());
            (reading.leave(), found)
        }
    }
}

// Holds the edition that an enter found, if it is newer than the one held. `NoMemory` if its
// copy was refused.
fn hold<V: Value>(held: &mut Edition<V>, found: Found<V>) -> Result<(), NoMemory>
    requires book { found.prefix.book ≡ held.old.prefix.book }
    requires number { found.number ≡ length (values found.prefix.log) }
    requires copy { IfSome found.edition (λ i. i.prefix ≡ found.prefix) }
    ensures ok { OnOk result (values held.new.prefix.log ≡ values found.prefix.log) }
    ensures err { OnErr result (held.new.prefix ≡ held.old.prefix) }
    ensures book { held.new.prefix.book ≡ held.old.prefix.book }
    ensures seen { IsPrefix (values held.old.prefix.log) (values held.new.prefix.log) }
    ensures ended { ended_in held.old.prefix.log ≡ true → held.new.prefix ≡ held.old.prefix }
{
    let Found {
        prefix,
        number,
        edition,
    } = found;
    are_of_one(&held.prefix, &prefix);
    // The shown edition is never older than what the desk has learned. But the rule of the history
    // and that of the shown editions are separate, and neither says so. No schedule leads here.
    if number < held.number {
        return Err(NoMemory);
    }
    if number == held.number {
        return Ok(());
    }
    let Some(edition) = edition else {
        return Err(NoMemory);
    };
    *held = edition;
    Ok(())
}

/// A desk that holds the edition that its reader has learned.
pub(crate) fn desk_over<V: Value>(reader: DeskReader<V>, edition: Edition<V>) -> Desk<V>
    requires role { (view reader.place).role ≡ AtDesk }
    requires list { (view reader.place).list ≡ values edition.prefix.log }
    requires home { (view reader.place).home ≡ home_of edition.prefix.book }
    requires enters { (view reader.place).enters ≡ 0 }
    ensures list { (result.seen ≡ values edition.prefix.log)
        × (result.entered ≡ values edition.prefix.log)
        × (result.ended ≡ ended_in edition.prefix.log) }
    ensures rest { (result.pair ≡ edition.prefix.book) × (result.enters ≡ 0) }
{
    Desk {
        reader: Some(reader),
        held: edition,
    }
}

impl<V: Value> Desk<V> {
    /// Loads the shown edition: enters, copies its value and leaves at once. It never waits.
    ///
    /// `NoMemory` is the result if the enter or the copy is refused; the desk then keeps what it
    /// held.
    pub fn enter(&mut self) -> Result<(), NoMemory>
        ensures ok { OnOk result
            ((self.new.enters ≡ self.old.enters + 1) × (self.new.seen ≡ self.new.entered)) }
        ensures err { OnErr result
            ((self.new.seen ≡ self.old.seen) × (self.new.ended ≡ self.old.ended)
            × (self.old.enters ≤ self.new.enters) × (self.new.enters ≤ self.old.enters + 1)) }
        ensures pair { self.new.pair ≡ self.old.pair }
        ensures seen { IsPrefix self.old.seen self.new.seen }
        ensures entered { IsPrefix self.old.entered self.new.entered }
        ensures ended { self.old.ended ≡ true
            → (self.new.seen ≡ self.old.seen) × (self.new.ended ≡ true) }
    {
        let (reader, found) = enter_once(self.reader.take().unwrap());
        self.reader = Some(reader);
        match found {
            None => Err(NoMemory),
            Some(found) => hold(&mut self.held, found),
        }
    }

    /// The value that the desk holds: the last that it has seen.
    pub fn value(&self) -> &V
        ensures last { last_or None self.now.seen ≡ Some result.now }
        ensures stands { V.stands result.now (map V.last self.now.seen) }
    {
        are_of_one(&self.held.prefix, &self.held.prefix);
        &self.held.value
    }

    /// Applies a receipt of the publisher. The desk then holds the later of the two values, its own
    /// or the receipt's.
    pub fn learn(&mut self, receipt: Receipt<V>)
        requires { receipt.pair ≡ self.old.pair }
        ensures told { IsPrefix receipt.list self.new.seen }
        ensures seen { IsPrefix self.old.seen self.new.seen }
        ensures larger { length self.new.seen
            ≡ max (length self.old.seen) (length receipt.list) }
        ensures whole { receipt.ended ≡ true
            → (self.new.seen ≡ receipt.list) × (self.new.ended ≡ true) }
        ensures ended { self.old.ended ≡ true
            → (self.new.seen ≡ self.old.seen) × (self.new.ended ≡ true) }
        ensures rest { (self.new.pair ≡ self.old.pair) × (self.new.entered ≡ self.old.entered)
            × (self.new.enters ≡ self.old.enters) }
    {
        let Receipt { edition } = receipt;
        are_of_one(&self.held.prefix, &edition.prefix);
        if edition.ended {
            self.held = edition;
        } else if edition.number > self.held.number {
            self.held = edition;
        }
    }
}
