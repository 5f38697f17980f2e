//! The limits of all that is read, each with its number.
ghost use Rattle.std.specs.Prelude.{◌≡◌};
ghost use Rattle.td_base.specs.declared.name_forms.TheConstants as name;
ghost use Rattle.td_base.specs.declared.report.TheConstants as report;
ghost use Rattle.tzif_reader.specs.declared.zone_file.TheConstants as tzif;
ghost use Rattle.catalogue.specs.declared.limits.TheConstants as release;
ghost use Rattle.release_manifest.specs.declared.manifest_type.TheConstants as manifest;
ghost use Rattle.http_request.specs.declared.limits.TheConstants as head;
ghost use Rattle.http_client.specs.declared.limits.TheConstants as client;
ghost use Rattle.ical_lines.specs.declared.folding.TheConstants as line;
ghost use Rattle.vtimezone_reader.specs.declared.calendar_type.TheConstants as calendar;
ghost use Rattle.subscribers.specs.declared.subscriber_list.TheConstants as subscriber;
ghost use Rattle.console.specs.declared.line.TheConstants as console;
ghost use Rattle.mirror.specs.declared.limits.TheConstants as mirror;

/// The limits that `docs/FORMATS.md` states. Fails if one of them gets another number.
pub fn limits_are_these()
    ensures identifier_bytes { name.MOST_IDENTIFIER_BYTES ≡ 64 }
    ensures file_name_bytes { name.MOST_FILE_NAME_BYTES ≡ 128 }
    ensures label_bytes { name.MOST_LABEL_BYTES ≡ 64 }
    ensures path_bytes { name.MOST_PATH_BYTES ≡ 1024 }
    ensures requests_of_a_connection { report.MOST_PLACES ≡ 1000 }
    ensures manifest_bytes { manifest.MOST_BYTES ≡ 4194304 }
    ensures manifest_depth { manifest.MOST_DEPTH ≡ 127 }
    ensures tzif_bytes { tzif.MOST_BYTES ≡ 65536 }
    ensures tzif_transitions { tzif.MOST_TRANSITIONS ≡ 4096 }
    ensures zones { release.MOST_ZONES ≡ 4096 }
    ensures names { release.MOST_NAMES ≡ 16384 }
    ensures releases { release.MOST_RELEASES ≡ 4294967295 }
    ensures tokens { release.KEPT_TOKENS ≡ 512 }
    ensures head_bytes { head.MOST_HEAD_BYTES ≡ 16384 }
    ensures head_line_feeds { head.MOST_FEEDS ≡ 66 }
    ensures response_fields { client.MOST_FIELDS ≡ 64 }
    ensures response_bytes { mirror.MOST_ANSWER ≡ 8388608 }
    ensures lists_of_a_sync { mirror.MOST_LISTS ≡ 16 }
    ensures calendar_bytes { calendar.MOST_BYTES ≡ 1048576 }
    ensures calendar_line_octets { line.MOST_OCTETS ≡ 75 }
    ensures console_line_bytes { console.MOST_BYTES ≡ 1100 }
    ensures subscribers { subscriber.MOST_SUBSCRIBERS ≡ 64 }
{}
