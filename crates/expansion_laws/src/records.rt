//! Plain records: what a file says of shapes, without their data.
use lists::ListOf;
use location_words::Word;
use orientation::Turn;

/// A use of a record: how it is turned, the word of its location, and the record's number.
#[derive(Drop)]
pub struct PlainUse {
    pub turn: Turn,
    pub word: Word,
    pub number: u32,
}

/// The uses of a record, in their order.
pub type PlainUses = ListOf<PlainUse>;

/// A record by its uses alone.
#[derive(Drop)]
pub struct PlainRecord {
    pub uses: PlainUses,
}
