// Chunks that are drawn in whatever order.
ghost use Rattle.std.specs.Prelude.{◌≡◌, ℕ, ℤ, List, Option};
ghost use Rattle.wl_core.specs.Combining.{IsFoldable};
ghost use Rattle.chunk_reports.specs.Orders.{EachOnce, sum_upto, sum_over, combined_upto, combined_over};

/// A law. Where each chunk is there once, in whatever order, what the chunks cost together and what their values are
/// combined are those of the chunks in order.
pub fn totals_in_any_order()
    ensures sums { (cost : ℕ → ℕ) (n : ℕ) (chunks : List ℕ) → EachOnce n chunks → sum_over cost chunks ≡ sum_upto cost n }
    ensures combinations { (op : List ℤ → List ℤ → List ℤ) → IsFoldable op → (value : ℕ → Option (List ℤ)) (n : ℕ) (chunks : List ℕ)
        → EachOnce n chunks → combined_over op value chunks ≡ combined_upto op value n }
{}
