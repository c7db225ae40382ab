//! Laws of bytes that are handed in. Each function does nothing: its contract is the law.
ghost use Rattle.byte_sink.specs.Laws.{PiecesJoin, TextsAreKept, TextsAreWhole, TextsGoOut};

/// Pieces that are handed in one after another are one piece, and a stop within a piece is a stop within each longer
/// one.
pub fn pieces_join()
    ensures { PiecesJoin }
{}

/// Of a text after which nothing waits any more the channel took all, and it is told how much; where it stopped, the
/// channel took its first bytes, so many as are told, and not all.
pub fn texts_are_whole()
    ensures { TextsAreWhole }
{}

/// A text that is handed in from the beginning, up to the end, has gone out over its channel, whole or in part, and it
/// is told how much of it.
pub fn texts_go_out()
    ensures { TextsGoOut }
{}

/// A text in memory that was empty holds at its end what was handed in.
pub fn texts_are_kept()
    ensures { TextsAreKept }
{}
