// The arena: a parity game by the questions that may be asked of it, and the layers that stand over any arena.
#![tactic(auto)]

mod arcs;
mod hold;
mod named;
mod questions;
mod swap;
mod total;

pub use arcs::Arcs;
pub use hold::{Hold, NoEntry};
pub use named::{Name, Named};
pub use questions::Arena;
pub use swap::Swap;
pub use total::arc_total;
