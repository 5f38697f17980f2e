//! Manifests.
use case_lines::{Answer, AnswerBuilder, Row, display_text};
use release_manifest::{Manifest, ManifestZone, read};
use std::alloc::Global;

/// `manifest TEXT`: the content of the manifest, or its fault as it is printed.
pub fn read_back(alloc: Global, row: &Row) -> Answer {
    match read(alloc, row.word(0)?) {
        Ok(manifest) => manifest_line(alloc, &manifest),
        Err(fault) => display_text(alloc, &fault),
    }
}

/// Publisher, version and stamp, then each zone and the table of leap seconds, each after a bar.
pub fn manifest_line(alloc: Global, manifest: &Manifest) -> Answer {
    let mut builder = AnswerBuilder::new(alloc);
    add_head(&mut builder, manifest);
    for zone in manifest.zones.as_slice() {
        add_zone(&mut builder, zone);
    }
    if let Some(leaps) = &manifest.leaps {
        add_texts(
            &mut builder,
            leaps.file.as_slice(),
            leaps.expires.as_slice(),
        );
    }
    builder.finish()
}

fn add_head(builder: &mut AnswerBuilder, manifest: &Manifest) {
    builder.add_bytes(manifest.publisher.as_slice());
    builder.add_bytes(b" ");
    builder.add_bytes(manifest.version.as_slice());
    builder.add_bytes(b" ");
    builder.add_display(&manifest.stamp.seconds);
}

/// A zone with its file, and its aliases, each after a comma.
fn add_zone(builder: &mut AnswerBuilder, zone: &ManifestZone) {
    add_texts(builder, zone.tzid.as_slice(), zone.file.as_slice());
    for alias in zone.aliases.as_slice() {
        builder.add_bytes(b",");
        builder.add_bytes(alias.as_slice());
    }
}

fn add_texts(builder: &mut AnswerBuilder, first: &[u8], second: &[u8]) {
    builder.add_bytes(b"|");
    builder.add_bytes(first);
    builder.add_bytes(b":");
    builder.add_bytes(second);
}
