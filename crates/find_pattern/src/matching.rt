//! Matching of names.
ghost use Rattle.std.specs.Prelude.{◌≡◌};
ghost use Rattle.find_pattern.specs.Matching as matching;

use crate::Pattern;
use crate::folding::is_same;

/// Whether a name matches the pattern. ASCII letters match in either case, and `_` matches a space.
#[tactic(auto, unfolding(crate::specs::Matching::matches))]
pub fn matches(pattern: &Pattern, name: &[u8]) -> bool
    ensures { result ≡ matching.matches pattern.now name.now }
{
    let text = pattern.text.as_slice();
    match (pattern.lead, pattern.trail) {
        (false, false) => is_same(text, name),
        (true, false) => ends(text, name),
        (false, true) => begins(text, name),
        (true, true) => contains(text, name),
    }
}

/// Whether the name begins with the text.
fn begins(text: &[u8], name: &[u8]) -> bool
    ensures { result ≡ matching.starts_as text.now name.now }
{
    let len = text.len().min(name.len());
    is_same(text, &name[..len])
}

/// Whether the name ends with the text.
fn ends(text: &[u8], name: &[u8]) -> bool
    ensures { result ≡ matching.ends text.now name.now }
{
    let start = name.len().saturating_sub(text.len());
    is_same(text, &name[start..])
}

/// Whether the text occurs in the name.
#[tactic(auto, unfolding(crate::specs::Matching::suffixes))]
fn contains(text: &[u8], name: &[u8]) -> bool
    ensures { result ≡ matching.contains text.now name.now }
{
    let mut left = name;
    'suffixes: loop {
        if begins(text, left) {
            return true;
        }
        let Some((_, rest)) = left.split_first() else {
            return false;
        };
        left = rest;
    }
}
