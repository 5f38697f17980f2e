//! Laws of the end of a sync, each the contract of a function that does nothing.
ghost use Rattle.std.specs.Prelude.{◌≡◌, ℕ, List, Ok};
ghost use Rattle.td_base.specs.declared.upstream.Exchange.{Exchange};
ghost use Rattle.http_client.specs.Requests.{request_text};
ghost use Rattle.sync_core.specs.Mirrors.{MirrorState, ask_of};
ghost use Rattle.sync_core.specs.Steps.{IsAnswerTo, settles};
ghost use Rattle.sync_core.specs.declared.heard_type.Heard.{Heard};
ghost use Rattle.sync_core.specs.declared.heard_type.Settled.TheVariants.{Holds};
ghost use Rattle.mirror.specs.Shares.{SyncEnds};
ghost use Rattle.mirror.specs.Understanding.{Means};
ghost use Rattle.sync_laws.specs.SyncEnds.{EndsUnchanged, IsEmptyChangeList};

/// A mirror is in sync only after an empty list that it requested with a token. Fails if a list of
/// all zones can end a sync, even an empty one.
pub fn only_empty_changes_settle()
    ensures { (s : MirrorState) (h : Heard) → IsAnswerTo (ask_of s) h → settles s h ≡ Holds
        → IsEmptyChangeList (ask_of s) h }
{}

/// The last exchange of a sync that ended well is a request with a token and an empty list with
/// status 200. Fails if a sync can end with a file, a full list or an error.
pub fn syncs_end_with_empty_changes()
    ensures { (host : List ℕ) (s t : MirrorState) (taken untaken : List Exchange)
        → SyncEnds (request_text host) Means s t taken untaken (Ok tt) → EndsUnchanged host taken }
{
    only_empty_changes_settle();
}
