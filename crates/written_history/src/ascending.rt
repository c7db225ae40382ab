//! Lists of numbers and of pairs of numbers in ascending order, each thing once.
ghost use Rattle.std.specs.Prelude.{◌≡◌, ◌<◌, ◌^◌, ◌↔◌, ℕ, Contains, length, nat_lt};
ghost use Rattle.history_text.specs.HistoryText.{is_pair_below, Ascend, IsShort};

use brep_tokens::Numbers;
use history_text::NumberPairs;

/// How many pairs there are: a pair takes 16 bytes.
fn pair_count(pairs: &[(u64, u64)]) -> usize
    ensures count { result ≡ length pairs.now }
    ensures few { result < 2 ^ 59 }
{
    pairs.len()
}

/// The pairs in ascending order, each once.
pub(crate) fn ascending_pairs(mut pairs: Vec<(u64, u64)>) -> NumberPairs
    ensures order { Ascend is_pair_below result }
    ensures same { (y : ℕ × ℕ) → Contains result y ↔ Contains pairs.items y }
    ensures short { IsShort (length result) }
{
    pairs.sort_unstable();
    pairs.dedup();
    let _ = pair_count(pairs.as_slice());
    NumberPairs::from_vec(pairs)
}

/// The numbers in ascending order, each once.
pub(crate) fn ascending_numbers(mut numbers: Vec<u64>) -> Numbers
    ensures order { Ascend nat_lt result }
    ensures same { (y : ℕ) → Contains result y ↔ Contains numbers.items y }
{
    numbers.sort_unstable();
    numbers.dedup();
    Numbers::from_vec(numbers)
}
