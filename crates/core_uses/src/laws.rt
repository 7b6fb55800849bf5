ghost use Rattle.core_uses.specs.Statements.{BlocksAreDecided, RightsAreDecided, ListsAreDecided};

/// Law: the tests of `avoids` and `avoids_right` are true exactly where the variable is not used.
pub fn avoided()
    ensures blocks { BlocksAreDecided }
    ensures rights { RightsAreDecided }
    ensures lists { ListsAreDecided }
{}
