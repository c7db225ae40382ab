//! Laws of written heads. Each function does nothing: its contract is the law.
ghost use Rattle.written_heads.specs.Named.{LocationsStay};

/// Data name the same locations in each version.
pub fn locations_stay()
    ensures { LocationsStay }
{}
