//! What the input of the worked runs asks for: its orders, and the texts that it gives under names.
#![tactic(auto)]

mod escapes;
mod given;
mod numbers;
mod orders;
mod texts;

pub use given::Given;
pub use numbers::{number_and_rest, numbers_of};
pub use orders::{Give, Order, Ran, Sweep, order_of};
pub use texts::{Named, Texts};
