ghost use Rattle.std.specs.Prelude.{◌≡◌, ℕ, ℤ, List};
ghost use Rattle.sac_base.specs.declared.grid.Grid1.{Grid1};
ghost use Rattle.grid_sets.specs.Segments.{IsAxisCount};
ghost use Rattle.grid_sets.specs.Periods.{IsCommonPeriod};

/// Law: an axis with grids has a greatest period and a count of runs, and only one of each.
pub fn axis_count()
    ensures some { (grids : List Grid1) (to from : ℤ) → (greatest : ℕ) × ((runs : ℕ) × IsAxisCount grids to from greatest runs) }
    ensures one { (grids : List Grid1) (to from : ℤ) (g r : ℕ) → IsAxisCount grids to from g r → (h s : ℕ) → IsAxisCount grids to from h s → (h ≡ g) × (s ≡ r) }
{}

/// Law: two grids have a common period, and only one.
pub fn common_period()
    ensures some { (a b : Grid1) → (p : ℕ) × IsCommonPeriod a b p }
    ensures one { (a b : Grid1) (p q : ℕ) → IsCommonPeriod a b p → IsCommonPeriod a b q → q ≡ p }
{}
