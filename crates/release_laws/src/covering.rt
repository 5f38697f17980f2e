//! Laws of what is hashed for tags and tokens. Each is the contract of a function with an empty
//! body.
ghost use Rattle.std.specs.Prelude.{◌≡◌, ℕ, List, length};
ghost use Rattle.catalogue.specs.Releases.{ContentData, ReleaseData, IsShort};
ghost use Rattle.catalogue.specs.Digests.{content_bytes, link_bytes};
ghost use Rattle.release_laws.specs.Covered.{HasLinkLengths, IsSameLink};

/// Contents whose tags hash the same bytes are the same: identifier, aliases and file.
pub fn tags_cover()
    ensures { (c d : ContentData) → IsShort c → IsShort d → content_bytes c ≡ content_bytes d
        → c ≡ d }
{}

/// Places whose tokens hash the same bytes follow the same chain value. Their releases have the
/// same stamp, publisher, version and digests of contents. Their tables of leap seconds have the
/// same bytes and expiry.
pub fn tokens_cover()
    ensures { (a b : List ℕ) (r s : ReleaseData) → HasLinkLengths a r → HasLinkLengths b s
        → link_bytes a r ≡ link_bytes b s → IsSameLink a r b s }
{}
