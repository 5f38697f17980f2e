//! How the stretches of a connection join.
ghost use Rattle.std.specs.Prelude.{ℕ, List};
ghost use Rattle.connection.specs.FaultCounts.{FaultCounts};
ghost use Rattle.connection.specs.Served.{NeverFall, Served, Transcript};
ghost use Rattle.http_answer.specs.declared.answer.Answer.{Answer};
ghost use Rattle.http_request.specs.declared.head.Head.{Head};
ghost use Rattle.td_base.specs.declared.report.End.{End};
ghost use Rattle.connection_laws.specs.Joined.{AllGoOn, IsServedWhole, joined_transcripts};

use http_request::gives;

/// Takes stretches of one connection of which all but the last leave it open, at places that never
/// decrease. The whole connection was then served as the last stretch says, after the requests of
/// the stretches before it.
pub fn stretches_join()
    ensures { (answer : ℕ → Head → Answer) (count : ℕ) (stretches : List Transcript)
        (last : Transcript) (before now : FaultCounts) (end : End)
        → AllGoOn answer stretches → Served answer count last before now end
        → NeverFall (joined_transcripts stretches last).places
        → IsServedWhole answer count (joined_transcripts stretches last) before now end }
{
    gives();
}
