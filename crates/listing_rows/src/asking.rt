//! What a row asks for.

use orientation::{Kind, kind_of_name};
use shape_listing::Listing;

/// The kind of a name, and every kind of the name `All`.
fn kind_or_all(name: &str) -> Option<Option<Kind>> {
    if name == "All" {
        return Some(None);
    }
    let kind = kind_of_name(name.as_bytes())?;
    Some(Some(kind))
}

/// The shapes of `KIND`, or those of `X:Y`.
fn shapes_of(name: &str) -> Option<Listing> {
    match name.split_once(':') {
        None => Some(Listing::Shapes(kind_or_all(name)?)),
        Some((low, high)) => Some(Listing::Above {
            low: kind_of_name(low.as_bytes())?,
            high: kind_of_name(high.as_bytes())?,
        }),
    }
}

/// What a row asks for, and none where it is no row.
pub(crate) fn listing_of(row: &str) -> Option<Listing> {
    let mut words = row.split_whitespace();
    let first = words.next()?;
    let name = words.next()?;
    if first == "list" {
        return shapes_of(name);
    }
    if first != "walk" {
        return None;
    }
    let kind = kind_or_all(name)?;
    match words.next()?.parse::<u32>() {
        Ok(count) => Some(Listing::Walk { kind, count }),
        Err(_) => None,
    }
}
