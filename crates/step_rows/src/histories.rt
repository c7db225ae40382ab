//! The history of a step in numbers.
ghost use Rattle.std.specs.Prelude.{◌<◌, length};
ghost use Rattle.shape_pool.specs.Rows.{HasPlaces};
ghost use Rattle.reshape.specs.Answers.{IsHeldAnswer};

use crate::saying::add_number;
use brep_tokens::Numbers;
use history_text::NumberPairs;
use location_words::Words;
use reshape::Rewritten;
use shape_pool::{Pool, UseOf};
use std::alloc::{AllocError, Global};
use step_history::of_step;
use written_history::history_in_numbers;
use written_history::laws::orders_list_once;
use written_order::order_of;

/// Appends a word and numbers.
fn add_numbers(
    text: &mut String,
    alloc: Global,
    word: &str,
    numbers: &Numbers,
) -> Result<(), AllocError> {
    text.push_str(word)?;
    for number in numbers.as_slice() {
        add_number(text, alloc, *number)?;
    }
    text.push_str("\n")
}

/// Appends a word and pairs of numbers, the input's before the written one.
fn add_number_pairs(
    text: &mut String,
    alloc: Global,
    word: &str,
    pairs: &NumberPairs,
) -> Result<(), AllocError> {
    text.push_str(word)?;
    for pair in pairs.as_slice() {
        add_number(text, alloc, pair.0)?;
        text.push_str(format!(in alloc; ">{}", pair.1)?.as_str())?;
    }
    text.push_str("\n")
}

/// Appends the history of a step from a root: the origins of what is written, and what was modified, generated and
/// removed.
pub(crate) fn add_history(
    text: &mut String,
    alloc: Global,
    pool: &Pool,
    words: &Words,
    before: UseOf,
    made: &Rewritten,
) -> Result<(), AllocError>
    requires before { before.id.0 < length pool.now }
    requires places { HasPlaces pool.now (length words.now) }
    requires made { IsHeldAnswer pool.now (length words.now) made.now }
{
    orders_list_once(pool);
    let _ = words.len();
    let step = of_step(pool, before.id, made.root.id, &made.images, &made.replaced)?;
    let order = order_of(alloc, pool, made.root.id)?;
    let history = history_in_numbers(alloc, pool, &order, &step)?;
    add_numbers(text, alloc, "origins", &history.origins)?;
    add_number_pairs(text, alloc, "modified", &history.modified)?;
    add_number_pairs(text, alloc, "generated", &history.generated)?;
    add_numbers(text, alloc, "removed", &history.removed)
}
