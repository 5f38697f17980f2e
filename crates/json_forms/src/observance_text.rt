//! The text of an observance in three pieces, so that the same change in another year needs only
//! another year. Together they are what a `Writer` gives for the observance's tokens.
ghost use Rattle.std.specs.Prelude.{◌≡◌, ◌+◌, ◌≤◌, ◌++◌, ◌+ℤ◌, IsTrue, OnOk, cond, drop, length};
ghost use Rattle.json.specs.Print.{escape, escape_byte, print_from};
ghost use Rattle.td_base.specs.Names.{is_printable, IsPlain};
ghost use Rattle.td_civil.specs.Bounds.{IsWithinBounds};
ghost use Rattle.td_civil.specs.Cycles.{observance_later};
ghost use Rattle.td_civil.specs.declared.moment_type.TheConstants.{CYCLE};
ghost use Rattle.json_forms.specs.ExpansionDocument.{observance_data};
ghost use Rattle.json_forms.specs.Pieces.{head_text, tail_text};
ghost use Rattle.json_forms.specs.PlainTexts.{IsPlainObservance};
ghost use Rattle.json_forms.specs.TreeTokens.{tree_tokens};

use itoa::Buffer;
use std::marker::Model;
use td_base::{Bytes, NoMemory, ShortText};
use td_civil::{CYCLE, Name, Observance, text_later, utc_text};

/// The most bytes of what comes before the moment: a name has at most 32, each of which may have a
/// backslash before it.
const MOST_HEAD: usize = 85;

/// The most bytes of what comes after the moment.
const MOST_TAIL: usize = 60;

/// An observance with its text as JSON (RFC 7808, section 6.3). Contracts see the observance.
#[derive(Drop)]
pub struct ObservanceText {
    observance: Observance,
    /// What comes before the moment, with a comma first.
    head: ShortText<MOST_HEAD>,
    /// The moment in UTC.
    onset: [u8; 20],
    tail: ShortText<MOST_TAIL>,
}

impl Model for ObservanceText {
    ghost use Rattle.td_civil.specs.declared.local_time.Observance.{Observance};
    ghost use Rattle.json_forms.specs.Pieces.{HasPieces};

    ghost Value = { Observance };

    ghost view = { λ t. t.observance };

    ghost invariant = { λ t. HasPieces t.observance t.head t.onset t.tail };
}

impl ObservanceText {
    /// The text of an observance.
    pub fn new(observance: Observance) -> ObservanceText
        requires { IsPlainObservance observance }
        ensures { result ≡ observance }
    {
        let head = head_text(&observance.name);
        let onset = utc_text(observance.onset);
        let tail = tail_text(observance.from, observance.to);
        ObservanceText {
            observance,
            head,
            onset,
            tail,
        }
    }

    /// Goes on to the same change one period of the calendar later.
    pub fn go_on(&mut self)
        requires here { IsWithinBounds self.old.onset.seconds }
        requires later { IsWithinBounds (self.old.onset.seconds +ℤ CYCLE) }
        ensures { self.new ≡ observance_later self.old }
    {
        self.onset = text_later(&self.onset);
        self.observance.onset.seconds += CYCLE;
    }

    /// Appends the text, with a comma before it if it comes after a value.
    pub(crate) fn put(&self, out: &mut Bytes, after_value: bool) -> Result<(), NoMemory>
        ensures { OnOk result (out.new
            ≡ out.old ++ print_from after_value (tree_tokens (observance_data self.now))) }
    {
        out.append(opening(self.head.as_slice(), after_value))?;
        out.append(self.onset.as_slice())?;
        out.append(self.tail.as_slice())?;
        Ok(())
    }
}

/// What comes before the moment, with its comma only after a value.
fn opening(head: &[u8], after_value: bool) -> &[u8]
    requires { 1 ≤ length head.now }
    ensures { result.now ≡ cond after_value head.now (drop 1 head.now) }
{
    if after_value { head } else { &head[1..] }
}

/// What comes before the moment: the name as it stands within a JSON string.
fn head_text(name: &Name) -> ShortText<MOST_HEAD>
    requires { IsPlain name.now }
    ensures { result ≡ head_text name.now }
{
    let mut head = ShortText::new();
    head.append(b",{\"name\":\"");
    for &byte in name.as_slice() {
        put_escaped(&mut head, byte);
    }
    head.append(b"\",\"onset\":\"");
    head
}

/// Appends a printable byte as it stands within a JSON string.
#[tactic(auto, using(crate::proofs::PieceTexts::byte_stays), unfolding(json::specs::Print::escape_byte))]
fn put_escaped(text: &mut ShortText<MOST_HEAD>, byte: u8)
    requires printable { IsTrue (is_printable byte) }
    requires room { length text.old + 2 ≤ MOST_HEAD }
    ensures appended { text.new ≡ text.old ++ escape_byte byte }
    ensures bound { length text.new ≤ length text.old + 2 }
{
    match byte {
        b'"' => text.append(b"\\\""),
        b'\\' => text.append(b"\\\\"),
        _ => text.append(&[byte]),
    }
}

/// What comes after the moment: the offsets in seconds east of UTC.
fn tail_text(from: i32, to: i32) -> ShortText<MOST_TAIL>
    ensures { result ≡ tail_text from to }
{
    let (mut digits, mut tail) = (Buffer::new(), ShortText::new());
    tail.append(b"\",\"utc-offset-from\":");
    tail.append(digits.format(from).as_bytes());
    tail.append(b",\"utc-offset-to\":");
    tail.append(digits.format(to).as_bytes());
    tail.append(b"}");
    tail
}
