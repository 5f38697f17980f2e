//! Entity tags.
ghost use Rattle.std.specs.Prelude.{◌≡◌};
ghost use Rattle.std.specs.List.{list_any};
ghost use Rattle.negotiate.specs.Marks.{comma};
ghost use Rattle.td_base.specs.Texts.{pieces};
ghost use Rattle.negotiate.specs.Tags as tags;

use td_base::texts::trim;

/// Whether an If-None-Match field (RFC 9110, section 13.1.2) has this entity tag, which is given
/// with its quotes. Weak and strong tags compare as equal, and the field `*` matches every tag.
#[tactic(auto, unfolding(crate::specs::Tags::none_match))]
pub fn none_match(field: &[u8], tag: &[u8]) -> bool
    ensures { result ≡ tags.none_match field.now tag.now }
{
    field == b"*".as_slice() || is_listed(field, tag)
}

/// Whether a piece of the field is the tag.
fn is_listed(field: &[u8], tag: &[u8]) -> bool
    ensures { result ≡ list_any (tags.is_tag tag.now) (pieces comma field.now) }
{
    field
        .split(|&byte| byte == b',')
        .any(|piece| strong_tag(trim(piece)) == tag)
}

/// The tag without the prefix of a weak one.
fn strong_tag(tag: &[u8]) -> &[u8]
    ensures { result.now ≡ tags.strong_tag tag.now }
{
    tag.strip_prefix(b"W/").unwrap_or(tag)
}
