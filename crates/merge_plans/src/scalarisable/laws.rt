ghost use Rattle.merge_plans.specs.scalarisable.Laws.{TotalsAreDecided, UsesAreDecided};

/// Law: the tests of `none_use` and `are_passed` are true exactly where bindings around an inner loop do not use it, and never fault.
pub fn around_decided()
    ensures uses { UsesAreDecided }
    ensures totals { TotalsAreDecided }
{}
