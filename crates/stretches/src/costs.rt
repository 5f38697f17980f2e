//! Which requests are expected to take long, by their request lines.
ghost use Rattle.std.specs.Prelude.{◌≡◌, ◌+◌, ◌∷◌, IfSome, None};
ghost use Rattle.td_base.specs.Texts.{pieces};
ghost use Rattle.stretches.specs.Costs as costs;

use td_base::texts::{begins, cut};

/// The most slashes in the path of a quick request: `/tzdist/zones/NAME` has three. An expansion
/// has four (RFC 7808, section 5.4), and takes time for each year of its range.
pub const MOST_QUICK_SLASHES: usize = 3;

/// Whether received bytes have a line that requests something costly. Lines of later requests
/// count, and parts of lines: no costly request hides behind a quick one.
#[tactic(auto, unfolding(crate::specs::Costs::is_costly))]
pub fn is_costly(bytes: &[u8]) -> bool
    ensures { result ≡ costs.is_costly bytes.now }
{
    let mut left = Some(bytes);
    'lines: while let Some(rest) = left {
        let (line, after) = cut(rest, b'\n');
        if is_costly_line(line) {
            return true;
        }
        left = after;
    }
    false
}

/// Whether a line is the request line of something costly. A field line is not.
fn is_costly_line(line: &[u8]) -> bool
    ensures { result ≡ costs.is_costly_line line.now }
{
    let (method, rest) = cut(line, b' ');
    if has(method, b':') {
        return false;
    }
    match rest {
        Some(rest) => is_costly_target(cut(rest, b' ').0),
        None => false,
    }
}

/// Whether a target requests something costly.
fn is_costly_target(target: &[u8]) -> bool
    ensures { result ≡ costs.is_costly_target target.now }
{
    let (path, rest) = cut(target, b'?');
    match rest {
        Some(rest) => {
            if is_quick_rest(rest) {
                false
            } else {
                is_long(path)
            }
        }
        None => is_long(path),
    }
}

/// Whether the part of a target after its question mark is the query of a quick expansion. It has
/// no other question mark.
fn is_quick_rest(rest: &[u8]) -> bool
    ensures { result ≡ costs.is_quick_parts (pieces 63 rest.now) }
{
    let (query, more) = cut(rest, b'?');
    match more {
        Some(_) => false,
        None => is_quick(query),
    }
}

/// Whether a query has two parameters, which begin and end a range in one century.
fn is_quick(query: &[u8]) -> bool
    ensures { result ≡ costs.is_quick query.now }
{
    let (start, rest) = cut(query, b'&');
    match rest {
        Some(rest) => ends_quickly(start, rest),
        None => false,
    }
}

/// Whether one parameter follows this one, and they begin and end such a range.
fn ends_quickly(start: &[u8], rest: &[u8]) -> bool
    ensures { result ≡ costs.is_quick_pair (start.now ∷ pieces 38 rest.now) }
{
    let (end, more) = cut(rest, b'&');
    match more {
        Some(_) => false,
        None => is_quick_range(start, end),
    }
}

/// Whether two parameters begin and end a range in one century.
fn is_quick_range(start: &[u8], end: &[u8]) -> bool
    ensures { result ≡ costs.is_quick_range start.now end.now }
{
    begins(start, b"start=20") && begins(end, b"end=20")
}

/// Whether a path has more slashes than that of a quick request.
fn is_long(path: &[u8]) -> bool
    ensures { result ≡ costs.is_long path.now }
{
    let mut left = path;
    let mut seen = 0;
    while seen < MOST_QUICK_SLASHES {
        match after(left, b'/') {
            Some(rest) => left = rest,
            None => return false,
        }
        seen += 1;
    }
    has(left, b'/')
}

/// Whether a text has this byte.
fn has(text: &[u8], byte: u8) -> bool
    ensures { result ≡ costs.has byte text.now }
{
    match after(text, byte) {
        Some(_) => true,
        None => false,
    }
}

/// What follows the first such byte of a text, if it has one.
fn after(text: &[u8], byte: u8) -> Option<&[u8]>
    ensures some { IfSome result
        (λ rest. costs.count byte text.now ≡ costs.count byte rest.now + 1) }
    ensures none { result ≡ None → costs.count byte text.now ≡ 0 }
{
    let (_, rest) = cut(text, byte);
    match rest {
        Some(rest) => Some(rest),
        None => None,
    }
}
