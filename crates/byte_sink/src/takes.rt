//! What takes bytes.
ghost use Rattle.byte_sink.specs.Handing.{TakesNoMore, TextsJoin};
ghost use Rattle.std.specs.Prelude.{ℕ, List, IsTrue};

/// What takes bytes, piece by piece. One that has stopped takes no more, and stays as it is; so what hands in a text
/// needs no answer on the way.
pub trait TakesBytes {
    /// The second is left of the first after the bytes were handed in.
    ghost gives: { Self → List ℕ → Self → Type 0 };

    /// Hands in bytes.
    fn push(&mut self, bytes: &[u8])
        ensures { gives self.old bytes.now self.new };

    /// Whether it has stopped.
    fn is_stopped(&self) -> bool
        ensures { IsTrue result → TakesNoMore gives self.now };

    /// Pieces that are handed in one after another are one text.
    ghost joins: { TextsJoin gives };
}
