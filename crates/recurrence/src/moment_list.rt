ghost use Rattle.std.specs.Prelude.{◌≡◌, [], ◌∷◌, ◌++◌, OnOk, OnErr};

use std::alloc::Global;
use std::marker::Model;
use td_base::NoMemory;
use td_civil::Moment;

/// A list of moments. Contracts see it as that list.
#[derive(Drop)]
pub struct Moments {
    held: Vec<Moment>,
}

impl Model for Moments {
    ghost use Rattle.std.specs.Prelude.{List};
    ghost use Rattle.td_civil.specs.declared.moment_type.Moment.{Moment};

    ghost Value = { List Moment };

    ghost view = { λ m. m.held.items };
}

impl Moments {
    /// No moments. It allocates nothing; later growth uses the allocator.
    pub fn new(alloc: Global) -> Moments
        ensures { result ≡ [] }
    {
        Moments {
            held: Vec::new(alloc),
        }
    }

    /// The moments.
    pub fn as_slice(&self) -> &[Moment]
        ensures { result.now ≡ self.now }
    {
        self.held.as_slice()
    }

    /// Appends one moment.
    pub fn push(&mut self, moment: Moment) -> Result<(), NoMemory>
        ensures ok { OnOk result (self.new ≡ self.old ++ moment ∷ []) }
        ensures err { OnErr result (self.new ≡ self.old) }
    {
        self.held.push(moment)?;
        Ok(())
    }
}
