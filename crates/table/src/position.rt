// A position of a table, with its arcs in order.
use arena::Name;
use game::{Arc, Player};

#[derive(Drop)]
pub struct Position {
    pub mover: Player,
    pub name: Name,
    pub arcs: Vec<Arc>,
}
