ghost use Rattle.std.specs.Prelude.{◌≡◌, ◌+◌, ◌*◌, ◌<◌, ◌≤◌, ℕ, None, IfSome};
ghost use Rattle.std.specs.Int.{div_ceil};
ghost use Rattle.index_cutter.specs.Cuts.{chunk_size};
ghost use Rattle.sac_base.specs.Arrays.{MOST};
ghost use Rattle.wl_core.specs.declared.limits.TheConstants.{MOST_CHUNKS, MOST_WORKERS};

use wl_core::MOST_CHUNKS;

/// Positions cut into `count` chunks of `size` positions each, the last of which may have fewer. Chunk k begins at
/// position `k * size`.
#[derive(Clone, Copy, Debug, PartialEq, Eq)]
pub struct Cuts {
    pub positions: u64,
    pub size: u64,
    pub count: u64,
}

/// Cuts positions into chunks of the given size, or of an equal share for each worker, and in each case into chunks so
/// large that there are at most `MOST_CHUNKS`.
pub fn cut(positions: u64, workers: u32, chunk: Option<u64>) -> Cuts
    requires positions { positions ≤ MOST }
    requires workers { (1 ≤ workers) × (workers ≤ MOST_WORKERS) }
    requires chunk { IfSome chunk (λ size. 1 ≤ size) }
    ensures positions { result.positions ≡ positions }
    ensures size { result.size ≡ chunk_size positions workers chunk }
    ensures count { result.count ≡ div_ceil positions result.size }
    ensures some { 1 ≤ result.size }
    ensures covers { positions ≤ result.count * result.size }
    ensures filled { (k : ℕ) → k < result.count → k * result.size < positions }
    ensures most { result.count ≤ MOST_CHUNKS }
    ensures shared { chunk ≡ None → result.count ≤ workers }
{
    let wish = chunk.unwrap_or(positions.div_ceil(workers as u64));
    let size = wish.max(positions.div_ceil(MOST_CHUNKS)).max(1);
    Cuts {
        positions,
        size,
        count: positions.div_ceil(size),
    }
}
