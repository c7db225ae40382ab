//! Laws of histories over several steps, each the contract of a function that does nothing.
ghost use Rattle.history_merge.specs.Merged.{ImagesCompose};

/// Images compose alike however they are grouped, and those over no step change nothing.
pub fn images_compose()
    ensures { ImagesCompose }
{}
