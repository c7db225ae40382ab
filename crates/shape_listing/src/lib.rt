//! The texts that list the shapes of a file: those of a kind, each once; for each shape of a kind those of a higher kind
//! above it; and the first occurrences of a kind.
#![tactic(auto)]

mod above;
mod fault;
mod lines;
mod listing;
mod map;
mod walk;

pub use fault::ListingFault;
pub use listing::{Listing, listing_text};
