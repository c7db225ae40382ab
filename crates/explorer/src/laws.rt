//! Laws of walks, each the contract of a function that does nothing.
ghost use Rattle.explorer.specs.Walks.{WalkIsEntered};
ghost use Rattle.explorer.specs.Going.{FirstsAreTold, KindsAreThere};

/// What is entered and is of the kind sought is the walk.
pub fn walk_is_entered()
    ensures { WalkIsEntered }
{}

/// What comes first of occurrences is wanted or past a limit, and those before it are within the limits and not wanted.
pub fn firsts_are_told()
    ensures { FirstsAreTold }
{}

/// In each pool the origins have kinds that agree with the nodes'.
pub fn kinds_are_there()
    ensures { KindsAreThere }
{}
