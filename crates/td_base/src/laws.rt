//! Theorems about the definitions of this crate, each the contract of a function with an empty
//! body.
ghost use Rattle.std.specs.Prelude.{◌≡◌, ℕ, List, Option, Result, IfSome, IsTrue, take};
ghost use Rattle.td_base.specs.Views.{SourceFailed, SinkFailed, StoreFailed, LaterSource};
ghost use Rattle.td_base.specs.Views.{LaterSink, LaterStore, LaterConn, SourceView, SinkView};
ghost use Rattle.td_base.specs.Views.{StoreView, ConnView, source_of, sink_of};
ghost use Rattle.td_base.specs.Names.{IsPlain, is_identifier, is_label};
ghost use Rattle.td_base.specs.Outside.{Reads, Writes, Looks, ConnReads, ConnWrites};
ghost use Rattle.td_base.specs.Transfer.{IsWhole, ReadsTo, WritesAll, Sends};
ghost use Rattle.td_base.specs.declared.outside.FileRead.{FileRead};
ghost use Rattle.td_base.specs.declared.outside.ReadStep.{ReadStep};
ghost use Rattle.td_base.specs.declared.outside.WriteStep.{WriteStep};
ghost use Rattle.td_base.specs.declared.source_fault.SourceFault.{SourceFault};
ghost use Rattle.td_base.specs.declared.transfer.Written.{Written};

/// What is read of a source up to a limit is the prefix of that length of all its content.
pub fn reads_a_prefix()
    ensures { (most : ℕ) (old new : Option (List ℕ)) (bytes : List ℕ) → IsWhole most old new bytes
        → IfSome old (λ whole. bytes ≡ take most whole) }
{}

/// Identifiers and labels are printable ASCII.
pub fn names_are_plain()
    ensures identifier { (text : List ℕ) → IsTrue (is_identifier text) → IsPlain text }
    ensures label { (text : List ℕ) → IsTrue (is_label text) → IsPlain text }
{}

/// The relation between a source before and after some calls holds for no call and for one call,
/// and is transitive. A read that failed in a part of the calls failed in all of them.
pub fn sources_go_on()
    ensures refl { (a : SourceView) → LaterSource a a }
    ensures trans { (a b c : SourceView) → LaterSource a b → LaterSource b c → LaterSource a c }
    ensures failed_first { (a b c : SourceView)
        → SourceFailed a b → LaterSource b c → SourceFailed a c }
    ensures failed_last { (a b c : SourceView)
        → LaterSource a b → SourceFailed b c → SourceFailed a c }
    ensures one_read { (a b : SourceView) (r : ReadStep) (room : List ℕ)
        → Reads a b r room → LaterSource a b }
    ensures all_read { (most : ℕ) (a b : SourceView) (r : Result (List ℕ) SourceFault)
        → ReadsTo most a b r → LaterSource a b }
{}

/// The same for a sink and its writes.
pub fn sinks_go_on()
    ensures refl { (a : SinkView) → LaterSink a a }
    ensures trans { (a b c : SinkView) → LaterSink a b → LaterSink b c → LaterSink a c }
    ensures failed_first { (a b c : SinkView) → SinkFailed a b → LaterSink b c → SinkFailed a c }
    ensures failed_last { (a b c : SinkView) → LaterSink a b → SinkFailed b c → SinkFailed a c }
    ensures one_write { (a b : SinkView) (r : WriteStep) (piece : List ℕ)
        → Writes a b r piece → LaterSink a b }
    ensures all_written { (a b : SinkView) (text : List ℕ) (r : Written)
        → WritesAll a b text r → LaterSink a b }
{}

/// The same for a store.
pub fn stores_go_on()
    ensures refl { (a : StoreView) → LaterStore a a }
    ensures trans { (a b c : StoreView) → LaterStore a b → LaterStore b c → LaterStore a c }
    ensures failed_first { (a b c : StoreView)
        → StoreFailed a b → LaterStore b c → StoreFailed a c }
    ensures failed_last { (a b c : StoreView)
        → LaterStore a b → StoreFailed b c → StoreFailed a c }
    ensures one_look { (a b : StoreView) (path : List ℕ) (most : ℕ) (r : FileRead)
        → Looks a b path most r → LaterStore a b }
{}

/// The same for a connection, which has the relation of a source and that of a sink.
pub fn conns_go_on()
    ensures refl { (a : ConnView) → LaterConn a a }
    ensures trans { (a b c : ConnView) → LaterConn a b → LaterConn b c → LaterConn a c }
    ensures read { (a b : ConnView) → LaterConn a b → LaterSource (source_of a) (source_of b) }
    ensures written { (a b : ConnView) → LaterConn a b → LaterSink (sink_of a) (sink_of b) }
    ensures one_read { (a b : ConnView) (r : ReadStep) (room : List ℕ)
        → ConnReads a b r room → LaterConn a b }
    ensures one_write { (a b : ConnView) (r : WriteStep) (piece : List ℕ)
        → ConnWrites a b r piece → LaterConn a b }
    ensures all_written { (a b : ConnView) (text : List ℕ) (r : Written)
        → Sends a b text r → LaterConn a b }
{}
