ghost use Rattle.std.specs.Prelude.{◌≡◌};

/// What a run borrows from outside, besides its store: an input and an output, a network, and a
/// spawner of workers.
#[derive(Drop)]
pub struct RunIo<'a, C, K, N, W> {
    pub input: &'a mut C,
    pub output: &'a mut K,
    pub net: &'a mut N,
    pub spawner: &'a mut W,
}

impl<'a, C, K, N, W> RunIo<'a, C, K, N, W> {
    /// Bundles these into a site.
    pub fn new(
        input: &'a mut C,
        output: &'a mut K,
        net: &'a mut N,
        spawner: &'a mut W,
    ) -> RunIo<'a, C, K, N, W>
        ensures input { result.input.ghost_name ≡ input.entry.ghost_name }
        ensures output { result.output.ghost_name ≡ output.entry.ghost_name }
        ensures network { result.net.ghost_name ≡ net.entry.ghost_name }
        ensures spawner { result.spawner.ghost_name ≡ spawner.entry.ghost_name }
        ensures input_now { result.input.now ≡ input.old }
        ensures output_now { result.output.now ≡ output.old }
        ensures network_now { result.net.now ≡ net.old }
        ensures spawner_now { result.spawner.now ≡ spawner.old }
    {
        RunIo {
            input,
            output,
            net,
            spawner,
        }
    }
}
