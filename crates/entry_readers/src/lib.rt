//! What the readers of table entries share: what it means to read tokens one by one, the fields that entries are made
//! of, their spelling, and sections of entries.
#![tactic(auto)]

mod decimals_due;
mod due;
mod entry;
mod knots_due;
pub mod laws;
mod numbers_due;
mod section;
mod spell;

pub use decimals_due::DecimalsDue;
pub use due::{decimal_due, fault_at, flag_due, number_due, ranged_due, word_due};
pub use entry::EntryReader;
pub use knots_due::KnotsDue;
pub use numbers_due::NumbersDue;
pub use section::Section;
pub use spell::{DecimalsSpell, HeaderSpell, KnotsSpell, NumbersSpell, number_text};
