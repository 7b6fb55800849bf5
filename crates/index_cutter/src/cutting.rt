// How phases are cut.
ghost use Rattle.std.specs.Prelude.{◌≡◌, ℕ, ◌≤◌, IfSome};
ghost use Rattle.std.proofs.Props.{props};

/// How all phases of a run are cut into chunks: for so many workers, in chunks of the size that is given or of an equal
/// share for each worker.
#[derive(Clone, Copy)]
pub struct Cutting {
    pub workers: u32,
    pub chunk: Option<u64>,
    ghost some: { 1 ≤ workers },
    ghost few: { workers ≤ 64 },
    ghost sized: { IfSome chunk (λ size. 1 ≤ size) } by { Prim.hlevel props },
}

impl Cutting {
    ghost use Rattle.index_cutter.specs.Cuts.{chunks_of};

    /// That of a plan. A size of 0 counts as 1.
    pub fn of(workers: u32, chunk: Option<u64>) -> Cutting
        requires { (1 ≤ workers) × (workers ≤ 64) }
        ensures { (n : ℕ) → chunks_of result.workers result.chunk n ≡ chunks_of workers chunk n }
    {
        Cutting {
            workers,
            chunk: match chunk {
                Some(size) => Some(size.max(1)),
                None => None,
            },
        }
    }
}
