// The register layer: a game of r registers over any arena that is small enough.
#![tactic(auto)]

mod answers;
mod copied;
mod copying;
mod moves;
mod position;
mod registers;
mod row_moves;
mod spot;
mod tables;

pub use registers::Registers;
