ghost use Rattle.std.specs.Prelude.{◌≡◌, ◌<◌, ◌++◌, ◌^◌, ℕ, length, map, List, []};
ghost use Rattle.std.specs.Int.{to_be_bytes, w32};
ghost use Rattle.std.specs.List.{concat};
ghost use Rattle.sha2.specs.Hashers.{Holds256};
ghost use Rattle.td_base.specs.Sized.{sized};
ghost use Rattle.td_civil.specs.Calendar.{text_of};
ghost use Rattle.catalogue.specs.Releases.{ContentData, HasLengths, leap_file, leap_expiry};
ghost use Rattle.catalogue.specs.Digests.{content_digest, linked};
ghost use Rattle.catalogue.specs.HeldZones.{held_digest};
ghost use Rattle.catalogue.specs.Holdings.{release_of};

use crate::Leaps;
use crate::digest::{hash_number, hash_sized};
use crate::entries::Held;
use crate::head::Head;
use sha2::{Digest, Sha256};
use std::sync::Arc;
use td_civil::utc_text;

/// The bytes of the leap second file and of its expiry date; both are empty without a table.
fn leap_texts(leaps: &Option<Leaps>) -> (&[u8], &[u8])
    ensures file { result.0.now ≡ leap_file leaps.now }
    ensures expiry { result.1.now ≡ leap_expiry leaps.now }
{
    match leaps {
        Some(leaps) => (leaps.file.as_slice(), leaps.expires.as_slice()),
        None => (&[], &[]),
    }
}

/// Hashes the stamp, the publisher and the version, each after its length.
fn hash_labels(hasher: &mut Sha256, head: &Head)
    requires { HasLengths (release_of head.now []) }
    ensures { (m : List ℕ) → Holds256 hasher.old m → Holds256 hasher.new
        (m ++ sized (text_of head.now.stamp.seconds)
        ++ sized head.now.publisher ++ sized head.now.version) }
{
    hash_sized(hasher, utc_text(head.stamp).as_slice());
    hash_sized(hasher, head.publisher.as_slice());
    hash_sized(hasher, head.version.as_slice());
}

/// Hashes the leap second file and its expiry date, each after its length.
fn hash_leaps(hasher: &mut Sha256, head: &Head)
    requires { HasLengths (release_of head.now []) }
    ensures { (m : List ℕ) → Holds256 hasher.old m → Holds256 hasher.new
        (m ++ sized (leap_file head.now.leaps) ++ sized (leap_expiry head.now.leaps)) }
{
    let (file, expiry) = leap_texts(&head.leaps);
    hash_sized(hasher, file);
    hash_sized(hasher, expiry);
}

/// Hashes the number of zones, and their digests.
fn hash_digests<Z>(hasher: &mut Sha256, held: &[Arc<Held<Z>>])
    requires { length held.now < 2 ^ 32 }
    ensures { (m : List ℕ) → Holds256 hasher.old m → Holds256 hasher.new
        (m ++ to_be_bytes w32 (length held.now) ++ concat (map held_digest held.now)) }
{
    hash_number(hasher, held.len() as u32);
    for one in held {
        hasher.update(one.digest.as_slice());
    }
}

/// The chain value of a place, from the chain value of the place before and from the head and zones
/// of its release.
pub fn link<Z>(before: &[u8; 32], head: &Head, held: &[Arc<Held<Z>>]) -> [u8; 32]
    requires head { HasLengths (release_of head.now []) }
    requires held { length held.now < 2 ^ 32 }
    ensures { (contents : List ContentData) →
        map held_digest held.now ≡ map content_digest contents →
        result ≡ linked before.now (release_of head.now contents) }
{
    let mut hasher = Sha256::new();
    hasher.update(before.as_slice());
    hash_labels(&mut hasher, head);
    hash_leaps(&mut hasher, head);
    hash_digests(&mut hasher, held);
    hasher.finalize()
}
