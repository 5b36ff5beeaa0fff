// What the registers answer, as an arena.
ghost use Rattle.std.specs.Prelude.{◌≡◌, ◌+◌, ◌<◌, length};
ghost use Rattle.registers.specs.Layer.{registers};
ghost use Rattle.registers.specs.Views.{game_of, game_lawful, layer_game, layer_game_lawful, layer_of, enter_arc, leave_arc, StandsAt};

use super::copied::Copied;
use super::moves::Moves;
use super::registers::{Layer, Registers};
use super::spot::Spot;
use super::tables::step_count;
use arena::Arena;
use game::{Arc, Player};
use rows::Shape;

impl Registers {
    // The layer of r registers over an arena, which is asked now and not again. Each way out makes the value whole: a layer handed on by
    // itself would be copied, about 112 KB, also where there is none.
    pub fn over<A: Arena>(arena: &A, r: usize) -> Registers
        ensures { game_of result ≡ registers r (A.game arena.now) }
    {
        if r == 0 || r > 5 {
            return Registers { layer: None };
        }
        let Some(below) = Copied::of(arena) else {
            return Registers { layer: None };
        };
        let moves = Moves::new(Shape {
            registers: r,
            top: below.top,
        });
        Registers {
            layer: Some(Layer { below, moves }),
        }
    }
}

impl Layer {
    // How many positions and arcs the arena below has together: they are the places of the layer, each with every row.
    fn places(&self) -> usize
        ensures { result ≡ length self.now.below.positions.items + length self.now.below.arcs.items }
    {
        self.below.positions.len() + self.below.arcs.len()
    }

    // Where position x of the layer stands: at place x / rows with row x % rows; the rules number the layer's positions so.
    fn spot(&self, x: usize) -> Option<Spot>
        ensures { StandsAt self.now x result }
    {
        let count = self.moves.by_row.len();
        let place = x / count;
        let row = x % count;
        let size = self.below.positions.len();
        if place < size {
            Some(Spot::AtPosition { v: place, row })
        } else if place - size < self.below.arcs.len() {
            Some(Spot::AtArc {
                e: place - size,
                row,
            })
        } else {
            None
        }
    }

    // The arc from row k to arc e of the arena below, with the row updated. Rows go by number, as the layer's positions do.
    fn entering(&self, e: usize, k: usize) -> Arc
        requires arc { e < length self.now.below.arcs.items }
        requires row { k < length self.now.moves.by_row.items }
        ensures { result ≡ enter_arc self.now e k }
    {
        let row = self.moves.updated(k, self.below.arcs[e].priority);
        Arc {
            target: (self.below.positions.len() + e) * self.moves.by_row.len() + usize::from(row),
            priority: 0,
        }
    }

    // Arc j at arc e of the arena below and row k: it leads on to where e leads, by step j from the row.
    fn leaving(&self, e: usize, k: usize, j: usize) -> Option<Arc>
        requires arc { e < length self.now.below.arcs.items }
        requires row { k < length self.now.moves.by_row.items }
        ensures { result ≡ leave_arc self.now e k j }
    {
        let step = self.moves.step(k, j)?;
        Some(Arc {
            target: self.below.arcs[e].target * self.moves.by_row.len() + usize::from(step.row),
            priority: step.priority,
        })
    }
}

impl Arena for Layer {
    ghost game = { layer_game };

    ghost lawful = { layer_game_lawful };

    fn size(&self) -> usize {
        self.places() * self.moves.by_row.len()
    }

    fn top(&self) -> u8 {
        2 * self.moves.shape.registers as u8 + 1
    }

    fn mover(&self, x: usize) -> Option<Player> {
        if x < self.size() {
            Some(self.below.mover(x / self.moves.by_row.len()))
        } else {
            None
        }
    }

    fn arc_count(&self, x: usize) -> Option<usize> {
        match self.spot(x)? {
            Spot::AtPosition { v, .. } => Some(self.below.positions[v].count),
            Spot::AtArc { .. } => Some(step_count(self.moves.shape)),
        }
    }

    fn arc(&self, x: usize, i: usize) -> Option<Arc> {
        match self.spot(x)? {
            Spot::AtPosition { v, row } => {
                let e = self.below.number(v, i)?;
                Some(self.entering(e, row))
            }
            Spot::AtArc { e, row } => self.leaving(e, row, i),
        }
    }
}

// Where the layer does not stand there are no positions.
impl Arena for Registers {
    ghost game = { game_of };

    ghost lawful = { game_lawful };

    fn size(&self) -> usize {
        self.layer.as_ref().map_or(0, |layer| layer.size())
    }

    fn top(&self) -> u8 {
        self.layer.as_ref().map_or(0, |layer| layer.top())
    }

    fn mover(&self, v: usize) -> Option<Player> {
        self.layer.as_ref()?.mover(v)
    }

    fn arc_count(&self, v: usize) -> Option<usize> {
        self.layer.as_ref()?.arc_count(v)
    }

    fn arc(&self, v: usize, i: usize) -> Option<Arc> {
        self.layer.as_ref()?.arc(v, i)
    }
}
