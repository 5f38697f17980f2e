//! Theorems about the definitions, each the contract of a function with an empty body.
ghost use Rattle.std.specs.Prelude.{◌≡◌, ◌<◌, ◌≤◌, ◌++◌, ◌∷◌, [], ℕ, List, drop, length};
ghost use Rattle.std.specs.Prelude.{◌||◌, nat_le, None, Some, if◌then◌else◌, true, false};
ghost use Rattle.http_request.specs.Asks.{Asks, Bad, Ending, Gives, IsPrefixOf, Rest};
ghost use Rattle.http_request.specs.Ends.{feeds, fits, is_full, window};
ghost use Rattle.http_request.specs.Scans.{IsScanned, head_end};
ghost use Rattle.http_request.specs.Steps.{IsStep, Outcome, Refused, Taken, Waiting};
ghost use Rattle.http_request.specs.declared.head.Head.{Head};
ghost use Rattle.http_request.specs.declared.limits.TheConstants.{MOST_HEAD_BYTES, MOST_FEEDS};
ghost use Rattle.http_request.specs.declared.scan.Scan.{Scan};

/// The heads of a prefix are a prefix of the heads of the whole. A refusal of the prefix is also
/// that of the whole.
pub fn prefixes()
    ensures { (bytes next : List ℕ) (heads : List Head) (end : Ending)
        (all : List Head) (all_end : Ending)
        → Asks bytes heads end → Asks (bytes ++ next) all all_end
        → IsPrefixOf heads end all all_end }
{}

/// Only one step is possible at the beginning of a list.
pub fn one_step()
    ensures { (bytes : List ℕ) (one other : Outcome)
        → IsStep bytes one → IsStep bytes other → one ≡ other }
{}

/// A refusal stays, whatever bytes follow.
pub fn refusal_stays()
    ensures { (bytes next : List ℕ) (status : ℕ)
        → IsStep bytes (Refused status) → IsStep (bytes ++ next) (Refused status) }
{}

/// A head is not empty and lies within the list. If no head is complete yet, there is room for one.
pub fn is_bounded()
    ensures taken { (bytes : List ℕ) (head : Head) (len : ℕ)
        → IsStep bytes (Taken head len) → (0 < len) × (len ≤ length bytes) }
    ensures waiting { (bytes : List ℕ)
        → IsStep bytes Waiting → (length bytes < MOST_HEAD_BYTES) × (feeds bytes < MOST_FEEDS) }
{}

/// The heads given so far stay the same when a piece is fed. A head that is taken is the next of
/// them. If a refusal or an incomplete head follows, these are all the heads.
pub fn gives()
    ensures feed { (bytes piece : List ℕ) (heads : List Head) (held : List ℕ)
        → Gives bytes heads held → Gives (bytes ++ piece) heads (held ++ piece) }
    ensures take { (bytes : List ℕ) (heads : List Head) (held : List ℕ) (head : Head) (len : ℕ)
        → Gives bytes heads held → IsStep held (Taken head len)
        → Gives bytes (heads ++ head ∷ []) (drop len held) }
    ensures bad { (bytes : List ℕ) (heads : List Head) (held : List ℕ) (status : ℕ)
        → Gives bytes heads held → IsStep held (Refused status) → Asks bytes heads (Bad status) }
    ensures rest { (bytes : List ℕ) (heads : List Head) (held : List ℕ)
        → Gives bytes heads held → IsStep held Waiting → Asks bytes heads (Rest held) }
{}

/// The state of a search stays valid, whatever bytes follow. An end that is found has bytes before
/// it. It gives a window if it is within the limits. Without an end there is no window.
pub fn searches()
    ensures stays { (bytes next : List ℕ) (scan : Scan)
        → IsScanned bytes scan → IsScanned (bytes ++ next) scan }
    ensures end { (bytes : List ℕ) (n : ℕ) → head_end bytes ≡ Some n
        → (0 < n) × (n ≤ length bytes)
        × (window bytes ≡ if fits bytes n then Some n else None) }
    ensures full { (bytes : List ℕ) (n : ℕ) → n ≤ length bytes → fits bytes n ≡ false
        → is_full bytes ≡ true }
    ensures some { (bytes : List ℕ) → is_full bytes ≡ true → 0 < length bytes }
    ensures open { (bytes : List ℕ) (scan : Scan) → IsScanned bytes scan
        → scan.seen ≡ length bytes → (window bytes ≡ None)
        × (is_full bytes
        ≡ (nat_le MOST_HEAD_BYTES (length bytes) || nat_le MOST_FEEDS scan.feeds)) }
{}
