//! Writing of content lines.
ghost use Rattle.std.specs.Prelude.{◌≡◌, ◌<◌, ℕ, ◌+◌, List, ◌∷◌, ◌++◌, length, take, IfOk, OnOk};
ghost use Rattle.std.specs.Prelude.{OnErr};
ghost use Rattle.ical_lines.specs.Lines.{folded, content_line};

use td_base::{Bytes, NoMemory};

/// The most octets of a line, without its CRLF.
pub const MOST_OCTETS: usize = 75;

/// Appends one content line: the name, a colon and the value, folded if the line is longer than 75
/// octets. When out of memory, nothing is appended.
///
/// Name and value must be ASCII without control bytes, and the name must begin with a letter.
/// Otherwise the output is not a content line of RFC 5545.
pub fn line(out: &mut Bytes, name: &[u8], value: &[u8]) -> Result<(), NoMemory>
    ensures ok { OnOk result (out.new ≡ out.old ++ content_line (name.now ++ 58 ∷ value.now)) }
    ensures err { OnErr result (out.new ≡ out.old) }
{
    let start = out.len();
    if let Err(error) = append_line(out, name, value) {
        out.truncate(start);
        return Err(error);
    }
    Ok(())
}

/// Appends the line. When out of memory, its beginning stays.
fn append_line(out: &mut Bytes, name: &[u8], value: &[u8]) -> Result<(), NoMemory>
    ensures ok { OnOk result (out.new ≡ out.old ++ content_line (name.now ++ 58 ∷ value.now)) }
    ensures kept { take (length out.old) out.new ≡ out.old }
{
    if name.len() + value.len() < MOST_OCTETS {
        append_short(out, name, value)
    } else {
        append_long(out, name, value)
    }
}

/// Appends a line that needs no folding.
fn append_short(out: &mut Bytes, name: &[u8], value: &[u8]) -> Result<(), NoMemory>
    requires { length name.now + length value.now < 75 }
    ensures ok { OnOk result (out.new ≡ out.old ++ content_line (name.now ++ 58 ∷ value.now)) }
    ensures kept { take (length out.old) out.new ≡ out.old }
{
    out.append(name)?;
    out.append(b":")?;
    out.append(value)?;
    out.append(b"\r\n")?;
    Ok(())
}

/// Appends a line that may need folding.
fn append_long(out: &mut Bytes, name: &[u8], value: &[u8]) -> Result<(), NoMemory>
    ensures ok { OnOk result (out.new ≡ out.old ++ content_line (name.now ++ 58 ∷ value.now)) }
    ensures kept { take (length out.old) out.new ≡ out.old }
{
    let after_name = append_folded(out, MOST_OCTETS, name)?;
    let after_colon = append_folded(out, after_name, b":")?;
    append_folded(out, after_colon, value)?;
    out.append(b"\r\n")?;
    Ok(())
}

/// Appends octets to a line that has room for `room` more, and folds it before each octet that has
/// no room. It returns the room after them. So a line can be written in pieces: it begins with room
/// for [`MOST_OCTETS`], and the caller ends it with CRLF. When out of memory, the octets' beginning
/// stays.
pub fn append_folded(out: &mut Bytes, room: usize, octets: &[u8]) -> Result<usize, NoMemory>
    ensures ok { IfOk result (λ left. (rest : List ℕ)
        → out.new ++ folded left rest ≡ out.old ++ folded room (octets.now ++ rest)) }
    ensures kept { take (length out.old) out.new ≡ out.old }
{
    let mut room = room;
    let mut left = octets;
    'lines: while room < left.len() {
        let (front, rest) = left.split_at(room);
        out.append(front)?;
        out.append(b"\r\n ")?;
        left = rest;
        room = MOST_OCTETS - 1;
    }
    out.append(left)?;
    Ok(room - left.len())
}
