//! Laws of answers that are not whole, each the contract of a function that does nothing.
ghost use Rattle.std.specs.Prelude.{◌≡◌, ◌≤◌, ◌++◌, ℕ, List, length, false};
ghost use Rattle.td_base.specs.declared.report.Ask.{Ask};
ghost use Rattle.catalogue.specs.Histories.{IsHistory};
ghost use Rattle.catalogue.specs.Releases.{ReleaseData};
ghost use Rattle.http_answer.specs.Replies.{IsFixedStatus, fixed};
ghost use Rattle.http_request.specs.declared.head.Head.{Head};
ghost use Rattle.negotiate.specs.declared.choosing.Format.TheVariants.{Calendar, Tzif};
ghost use Rattle.zone_meaning.specs.Sound.{IsSound};
ghost use Rattle.sync_core.specs.declared.heard_type.Heard.{Heard};
ghost use Rattle.mirror.specs.Understanding.{Means};
ghost use Rattle.mirror.specs.declared.understood_type.Understood.TheVariants as understood;
ghost use Rattle.sync_world.specs.Hearing.{IsDataHeadOf};
ghost use Rattle.mirror_world.specs.Answers.{reply_over};

use calendar_world::calendars_are_read;
use sync_world::answers_are_heard;

/// Bytes that begin as the reply of a primary does are taken only if they are the whole reply. This
/// holds for a reply that is cut at any byte, and for one that other bytes follow. Fails if a part
/// of a file or of a list is taken.
pub fn only_whole_replies_are_taken()
    ensures files { (G : List ReleaseData) (a : Ask) (head : Head) (bytes after more : List ℕ)
        (h : Heard) → IsHistory IsSound G → 1 ≤ length G → IsDataHeadOf Tzif a head
        → head.head_only ≡ false → bytes ++ after ≡ reply_over G head ++ more
        → Means a bytes (understood.Hears h) → bytes ≡ reply_over G head }
    ensures calendars { (G : List ReleaseData) (a : Ask) (head : Head) (bytes after more : List ℕ)
        (h : Heard) → IsHistory IsSound G → 1 ≤ length G → IsDataHeadOf Calendar a head
        → head.head_only ≡ false → bytes ++ after ≡ reply_over G head ++ more
        → Means a bytes (understood.Hears h) → bytes ≡ reply_over G head }
{
    answers_are_heard();
    calendars_are_read();
}

/// Bytes that begin as one of the closing replies does, such as 503, are never taken. Fails if a
/// mirror drops its token, or takes an empty file, where a primary ran out of memory.
pub fn refusals_are_not_taken()
    ensures { (a : Ask) (status : ℕ) (bytes after more : List ℕ) (h : Heard) → IsFixedStatus status
        → bytes ++ after ≡ fixed status ++ more → Means a bytes (understood.Hears h) → ⊥ }
{}
