ghost use Rattle.orientation.specs.Laws.{SignsAndNamesTell, TurnsCompose};

/// Turns compose associatively, forward is the identity, internal and external are left zeros, and reversing twice is
/// no change.
pub fn turns_compose()
    ensures { TurnsCompose }
{}

/// A sign gives its turn back and a name its kind, and the tests `turn_eq` and `kind_eq` of the definitions tell
/// equality.
pub fn signs_and_names_tell()
    ensures { SignsAndNamesTell }
{}
