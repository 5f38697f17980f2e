ghost use Rattle.std.specs.Prelude.{◌≡◌, ℕ, List, Ok, [], ◌++◌, IfOk, OnOk, OnErr};
ghost use Rattle.http_request.specs.Asks.{Gives, Continues};
ghost use Rattle.http_request.specs.Holding.{only_seen};
ghost use Rattle.http_request.specs.declared.head.Head.{Head};
ghost use Rattle.http_request.specs.declared.head.Next.TheVariants as next;
ghost use Rattle.http_request.specs.Steps.{IsStep, IsTaken, Refused, Steps};
ghost use Rattle.http_request.specs.Taking.{HasForm, HasStatus, LeavesFewer, LeavesRoom};
ghost use Rattle.http_request.specs.Taking.{LeavesSearched};

use crate::Next;
use crate::held::HeldBytes;
use crate::looking::look;
use crate::scan::Scan;
use crate::step::Step;
use std::alloc::Global;
use std::marker::Model;
use td_base::NoMemory;

/// The bytes of a connection that are not taken yet, and a reader of the heads at their beginning.
/// Contracts see these bytes, how many of them were searched for the end of the first head, and the
/// size of the buffer.
#[derive(Drop)]
pub struct Heads {
    held: HeldBytes,
    scan: Scan,
}

impl Model for Heads {
    ghost use Rattle.http_request.specs.Holding.{HeadsView};
    ghost use Rattle.http_request.specs.Scans.{IsScanned};

    ghost Value = { HeadsView };

    ghost view = { λ h. record { rest = h.held.rest; seen = h.scan.seen; size = h.held.size } };

    ghost invariant = { λ h. IsScanned h.held.rest h.scan };
}

impl Heads {
    /// An empty buffer. It takes no memory yet; later growth uses this allocator.
    pub fn new(alloc: Global) -> Heads
        ensures { result ≡ only_seen [] 0 }
    {
        Heads {
            held: HeldBytes::new(alloc),
            scan: Scan::start(),
        }
    }

    /// How many bytes the buffer holds, with those already taken. The next `feed` frees the taken
    /// bytes.
    pub fn held(&self) -> usize
        ensures { result ≡ self.now.size }
    {
        self.held.size()
    }

    /// Appends a piece. If bytes were taken since the last piece, they are dropped first and the
    /// rest is moved.
    pub fn feed(&mut self, piece: &[u8]) -> Result<(), NoMemory>
        ensures ok { OnOk result
            (self.new ≡ only_seen (self.old.rest ++ piece.now) self.old.seen) }
        ensures err { OnErr result (self.new ≡ only_seen self.old.rest self.old.seen) }
        ensures cutting { OnOk result ((all : List ℕ) (given : List Head)
            → Gives all given self.old.rest → Gives (all ++ piece.now) given self.new.rest) }
    {
        self.held.append(piece)?;
        Ok(())
    }

    /// Reads the head at the beginning of the held bytes, and takes the bytes of a request. A
    /// refusal is returned again by every later call. A refusal and `More` need no memory.
    pub fn next(&mut self, alloc: Global) -> Result<Next, NoMemory>
        ensures steps { IfOk result (λ next. Steps self.old.rest next self.new.rest) }
        ensures err { OnErr result (self.new ≡ self.old) }
        ensures memory { OnErr result (IsTaken self.old.rest) }
        ensures for_good { (status : ℕ) → IsStep self.old.rest (Refused status)
            → result ≡ Ok (next.Bad status) }
        ensures size { self.new.size ≡ self.old.size }
        ensures searched { IfOk result (LeavesSearched self.new) }

        // The result in terms of all the bytes fed, with the heads given so far.
        ensures cutting { IfOk result (λ next. (all : List ℕ) (given : List Head)
            → Gives all given self.old.rest → Continues all given next self.new.rest) }

        // What a caller needs that feeds and reads in turn.
        ensures form { IfOk result HasForm }
        ensures status { IfOk result HasStatus }
        ensures fewer { IfOk result (LeavesFewer self.old.rest self.new.rest) }
        ensures room { IfOk result (LeavesRoom self.new.rest) }
    {
        self.step(alloc)
    }

    /// The same, by the search and the parser.
    fn step(&mut self, alloc: Global) -> Result<Next, NoMemory>
        ensures steps { IfOk result (λ next. Steps self.old.rest next self.new.rest) }
        ensures err { OnErr result (self.new ≡ self.old) }
        ensures memory { OnErr result (IsTaken self.old.rest) }
        ensures size { self.new.size ≡ self.old.size }
        ensures searched { IfOk result (LeavesSearched self.new) }
    {
        match look(alloc, self.held.as_slice(), self.scan)? {
            Step::Taken(head, len) => {
                self.held.take(len);
                self.scan = Scan::start();
                Ok(Next::Request(head))
            }
            Step::Refused(status) => Ok(Next::Bad(status)),
            Step::Waiting(scan) => {
                self.scan = scan;
                Ok(Next::More)
            }
        }
    }
}
