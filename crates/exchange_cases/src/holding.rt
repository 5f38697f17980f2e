//! What a mirror holds.
ghost use Rattle.std.specs.Prelude.{◌≡◌, []};

use case_lines::{Answer, AnswerBuilder};
use release_manifest::{Manifest, ManifestZone};
use std::alloc::Global;
use sync_core::{Mirror, MirrorFiles};
use td_base::{Ask, Bytes, FileRead, Store};
use td_civil::{HI, LO, Moment, utc_text};

/// `mirror-held`: the release that is held, as lines, or that files are pending. The lines are
/// stamp, publisher and version, and for each zone its identifier, aliases, file name and bytes.
pub fn release_lines(alloc: Global, mirror: &Mirror) -> Answer {
    match mirror.ask(alloc)? {
        Ask::Get(_) => case_lines::bytes(alloc, b"pending"),
        Ask::List(_) => release(alloc, mirror),
    }
}

fn release(alloc: Global, mirror: &Mirror) -> Answer
    requires { mirror.now.pending ≡ [] }
{
    let (manifest, mut store) = mirror.manifest(alloc)?;
    let mut builder = AnswerBuilder::new(alloc);
    add_manifest(alloc, &mut builder, &manifest, &mut store);
    builder.finish()
}

fn add_manifest(
    alloc: Global,
    builder: &mut AnswerBuilder,
    manifest: &Manifest,
    store: &mut MirrorFiles<'_>,
) {
    add_stamp(builder, manifest.stamp);
    add_word(builder, &manifest.publisher);
    add_word(builder, &manifest.version);
    for zone in manifest.zones.as_slice() {
        add_zone(alloc, builder, zone, store);
    }
}

fn add_stamp(builder: &mut AnswerBuilder, stamp: Moment) {
    if stamp.seconds < LO || HI < stamp.seconds {
        builder.add_bytes(b"no stamp");
    } else {
        builder.add_bytes(&utc_text(stamp));
    }
}

fn add_word(builder: &mut AnswerBuilder, word: &Bytes) {
    builder.add_bytes(b" ");
    builder.add_bytes(word.as_slice());
}

fn add_zone(
    alloc: Global,
    builder: &mut AnswerBuilder,
    zone: &ManifestZone,
    store: &mut MirrorFiles<'_>,
) {
    builder.add_bytes(b"\n");
    builder.add_bytes(zone.tzid.as_slice());
    for alias in zone.aliases.as_slice() {
        add_word(builder, alias);
    }
    add_word(builder, &zone.file);
    match store.read_file(alloc, zone.file.as_slice(), 100) {
        FileRead::Found(bytes) => add_word(builder, &bytes),
        _ => builder.add_bytes(b" is absent"),
    }
}
