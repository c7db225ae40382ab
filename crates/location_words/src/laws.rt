ghost use Rattle.location_words.specs.Laws.{LimitsTell, PairsMakeWords, ProductsJoin};
ghost use Rattle.location_words.specs.Laws.{ReductionEnds, TestTells, WordsAreAGroup};

/// Reducing a list of pairs, in whatever order of steps, comes to one end: its word.
pub fn reduction_ends()
    ensures { ReductionEnds }
{}

/// Words are a group.
pub fn words_are_a_group()
    ensures { WordsAreAGroup }
{}

/// The product of several words may be taken in parts.
pub fn products_join()
    ensures { ProductsJoin }
{}

/// What a word begins with is a word, and a power of one pair multiplies the power of that pair.
pub fn pairs_make_words()
    ensures { PairsMakeWords }
{}

/// A list of pairs has no fault exactly where it is within the limits.
pub fn limits_tell()
    ensures { LimitsTell }
{}

/// The definitions' test of two lists of pairs tells equality.
pub fn test_tells()
    ensures { TestTells }
{}
