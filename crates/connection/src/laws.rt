//! Laws of the definitions, each the contract of a function that does nothing.
ghost use Rattle.std.specs.Prelude.{◌≡◌, ℕ, []};
ghost use Rattle.connection.specs.FaultCounts.{FaultCounts};
ghost use Rattle.connection.specs.Served.{IsClosed, IsNeeded, Transcript};
ghost use Rattle.http_answer.specs.declared.answer.Answer.{Answer};
ghost use Rattle.http_request.specs.declared.head.Head.{Head};

/// For a connection that was closed, the bytes read and the places determine the bytes written.
pub fn one_closing()
    ensures { (answer : ℕ → Head → Answer) (s t : Transcript) (m n m' n' : FaultCounts)
        → s.read ≡ t.read → s.places ≡ t.places
        → IsClosed answer s m n → IsClosed answer t m' n' → s.written ≡ t.written }
{}

/// When nothing was read, nothing was read without need.
pub fn nothing_needed()
    ensures { IsNeeded [] }
{}
