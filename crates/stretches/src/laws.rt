//! Laws of the definitions, each the contract of a function that does nothing.
ghost use Rattle.std.specs.Prelude.{◌≡◌, ◌<◌, ◌+◌, ◌^◌, ◌++◌, ℕ, List, Some, length, take};
ghost use Rattle.http_request.specs.Ends.{window};
ghost use Rattle.http_request.specs.Steps.{IsStep, Waiting};
ghost use Rattle.stretches.specs.Calls.{AreFronts, Call, DoesAll, all_come, all_given, nothing};
ghost use Rattle.stretches.specs.Fronts.{front_length};
ghost use Rattle.stretches.specs.Intakes.{Came};
ghost use Rattle.stretches.specs.Queues.{PassOver, Served, most_before, spent_on};
ghost use Rattle.stretches.specs.declared.queues.Queue.{Queue};
ghost use Rattle.stretches.specs.declared.queues.Shared.{Shared};

use http_request::searches;

/// If nothing is ready, a server can only wait for more bytes. It answers what is ready before it
/// waits.
pub fn ready_is_answered()
    ensures waits { (bytes : List ℕ) → front_length bytes ≡ 0 → IsStep bytes Waiting }
    ensures answers { (bytes : List ℕ) → 0 < front_length bytes
        → ¬ (IsStep (take (front_length bytes) bytes) Waiting) }
{
    searches();
}

/// A whole head is given as it is, whatever follows it, so the pieces in which bytes come do not
/// matter. Bytes that can begin no head are all given.
pub fn fronts_stay()
    ensures whole { (bytes next : List ℕ) (n : ℕ) → window bytes ≡ Some n
        → front_length (bytes ++ next) ≡ n }
    ensures ready { (bytes next : List ℕ) → 0 < front_length bytes
        → 0 < front_length (bytes ++ next) }
{
    searches();
}

/// Through any calls of an intake nothing is lost and nothing is given twice. What was given, with
/// what is held, is what was received. What was given and what may be given are fronts in a row.
pub fn loses_nothing()
    ensures kept { (calls : List Call) (now : Came) → DoesAll nothing calls now
        → all_given calls ++ now.bytes ≡ all_come calls }
    ensures fronts { (calls : List Call) (now : Came) → DoesAll nothing calls now
        → AreFronts (all_given calls ++ take now.ready now.bytes) }
{}

/// No queue starves: the turns of other queues before its next own turn have a bound. It does not
/// depend on how many connections wait in them. Each turn takes at least a microsecond.
pub fn none_starves()
    ensures { (queue : Queue) (shared : Shared) (turns : List Served)
        → spent_on shared queue + 1 < 2 ^ 64 → PassOver queue shared turns
        → length turns < most_before shared queue }
{}
