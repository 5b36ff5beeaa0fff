// Lines of text, written piece by piece into a lent output.
#![tactic(auto)]

mod fault;
mod line;
mod pieces;

pub use fault::{Fault, OutputFault};
pub use line::refusal_line;
pub use pieces::Text;
