// The table: an arena of at most 16 named positions that owns its positions and arcs.
#![tactic(auto)]

mod answers;
mod position;
mod table;

pub use position::Position;
pub use table::Table;
