//! The bytes of a stream that states them.
ghost use Rattle.std.specs.Prelude.{◌≡◌, ◌++◌, ℕ, List, Option, Some};
ghost use Rattle.wire_laws.specs.Calls.{HasGiven, ReadCall, Reads, WriteCall, Writes, taken_bytes};

/// Reads, one after another, give the bytes that the stream states, in order. None is lost and none
/// is given twice, whatever batches they end. After a failed read nothing more is said. Fails if
/// the end of a batch loses bytes, or if a byte is given again.
pub fn reads_are_cuts()
    ensures { (bytes : List ℕ) (calls : List ReadCall) (now : Option (List ℕ))
        → Reads (Some bytes) calls now → HasGiven bytes calls now }
{}

/// Writes, one after another, add what they took, in order. A failed write adds nothing. Fails if a
/// piece that was taken is dropped, or is sent before an earlier one.
pub fn writes_are_kept()
    ensures { (bytes : List ℕ) (calls : List WriteCall) (now : Option (List ℕ))
        → Writes (Some bytes) calls now → now ≡ Some (bytes ++ taken_bytes calls) }
{}
