//! Laws of draws, each the contract of a function that does nothing.
ghost use Rattle.brep_gen.specs.Draws.{DrawsComeOut};

/// The first draws from a seed, worked out.
pub fn draws_come_out()
    ensures { DrawsComeOut }
{}
