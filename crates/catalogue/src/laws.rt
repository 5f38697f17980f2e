//! Theorems about the definitions of this crate, each the contract of a function with an empty
//! body.
ghost use Rattle.std.specs.Prelude.{◌≡◌, ◌+◌, ◌∷◌, ◌++◌, [], ℕ, List, Some, ◌<◌, ◌≤◌, ◌^◌, length};
ghost use Rattle.std.specs.Prelude.{IsTrue};
ghost use Rattle.std.specs.List.{AllByRecursion};
ghost use Rattle.td_base.specs.Names.{IsPlain};
ghost use Rattle.catalogue.specs.Releases.{ReleaseData, release_as_is, release_data};
ghost use Rattle.catalogue.specs.Histories.{Fits, FitsAfter, IsHistory, IsRelease, meta, token_of};
ghost use Rattle.catalogue.specs.Holdings.{StandsFor, place_count, release_held};
ghost use Rattle.catalogue.specs.Lookups.{place_of};
ghost use Rattle.catalogue.specs.Plain.{HasTokenForm, IsPlainEntry, is_token};
ghost use Rattle.catalogue.specs.declared.holding.Catalogue.{Catalogue};
ghost use Rattle.catalogue.specs.declared.release.Release.{Release};

use crate::{KEPT_TOKENS, ZoneData};

/// Whether a release fits a history does not depend on the order of its zones or of their aliases.
pub fn order_is_free<Z: ZoneData>()
    ensures { (H : List ReleaseData) (r : Release Z) →
        Fits H (release_as_is Z.bytes r) → Fits H (release_data Z.bytes r) }
{}

/// A release fits a history exactly when it follows the release in a catalogue of the history.
pub fn fits_what_is_held<Z: ZoneData>()
    ensures follows { (c : Catalogue Z) (H : List ReleaseData) (r : ReleaseData) →
        StandsFor Z.bytes Z.sound c H → Fits H r →
        FitsAfter (Some (release_held Z.bytes c)) (place_count c) r }
    ensures fits { (c : Catalogue Z) (H : List ReleaseData) (r : ReleaseData) →
        StandsFor Z.bytes Z.sound c H →
        FitsAfter (Some (release_held Z.bytes c)) (place_count c) r → Fits H r }
{}

/// A history followed by a release that is in order, sound and fits it is a history.
pub fn histories_grow<Z: ZoneData>()
    ensures { (H : List ReleaseData) (r : ReleaseData) →
        IsHistory Z.sound H → IsRelease Z.sound H r → IsHistory Z.sound (H ++ r ∷ []) }
{}

/// The texts of each entry are plain, and its stamp has a meaning.
pub fn entries_are_plain<Z: ZoneData>()
    ensures { (H : List ReleaseData) → IsHistory Z.sound H →
        AllByRecursion IsPlainEntry (meta H) }
{}

/// Each token has the form of one, and so it is plain, short and without spaces.
pub fn tokens_are_plain()
    ensures form { (H : List ReleaseData) (n : ℕ) → n < 2 ^ 32 → HasTokenForm n (token_of H n) }
    ensures plain { (H : List ReleaseData) (n : ℕ) → n < 2 ^ 32 → IsPlain (token_of H n) }
    ensures token { (H : List ReleaseData) (n : ℕ) → n < 2 ^ 32
        → IsTrue (is_token (token_of H n)) }
{}

/// The token of one of the last places leads to that place.
pub fn tokens_find_places()
    ensures { (H : List ReleaseData) (n : ℕ) →
        1 ≤ n → n ≤ length H → length H < n + KEPT_TOKENS → length H < 2 ^ 32
        → place_of H (token_of H n) ≡ Some n }
{}

/// Two different places, of any histories, never share a token.
pub fn tokens_are_apart()
    ensures { (G H : List ReleaseData) (m n : ℕ) → m < 2 ^ 32 → n < 2 ^ 32 →
        token_of G m ≡ token_of H n → m ≡ n }
{}
