// The chains of arc records: each position's arcs in order, and no record reached twice.
ghost use Rattle.std.specs.Prelude.{◌≡◌, ℕ, ◌+◌, ◌<◌, ◌≤◌, true, false, replicate, slice_index_or, MatchOption, MatchResult};
ghost use Rattle.sheet.specs.declared.fault.ReadFault.TheVariants.{Memory};
ghost use Rattle.game.specs.Lowest.{LowestWithout};
ghost use Rattle.table.specs.Sites.{site_of, sites_of};
ghost use Rattle.sheet.specs.Layout.{positions, records, first_record};
ghost use Rattle.sheet.specs.Chains.{losing, mended};
ghost use Rattle.sheet.specs.Reading.{number, FromOne, ChainRead, MarkedTwice, PositionRead, AllRead, Stopped};
ghost use Rattle.sheet.specs.Refusals.{ComesAgain};

use super::fault::{ReadFault, SheetFault};
use super::layout::{RecordedSheet, SheetPosition};
use super::marks::Marks;
use game::{Arc, Player};
use std::alloc::Global;
use table::Position;

// Goes through the chains of a sheet; the marks are of the records that the chains so far have reached. That a call leaves the sheet
// alone is a clause of each: no field can hold it.
#[derive(Drop)]
pub(crate) struct ChainReader<'a> {
    heap: Global,
    sheet: RecordedSheet<'a>,
    marks: Marks,
}

impl<'a> ChainReader<'a> {
    pub(crate) fn new(heap: Global, sheet: RecordedSheet<'a>) -> ChainReader<'a>
        ensures same_sheet { result.sheet.sheet.bytes.now ≡ sheet.entry.sheet.bytes.now }
        ensures unmarked { result.marks.marked ≡ replicate 49 false }
    {
        ChainReader {
            heap,
            sheet,
            marks: Marks::new(),
        }
    }

    // The arcs of the chain that begins at record first, if there is one.
    fn chain(&mut self, first: Option<usize>) -> Result<Vec<Arc>, ReadFault>
        requires there { number first ≤ records self.old.sheet.sheet.bytes.now }
        requires from_one { FromOne first }
        ensures same_sheet { self.new.sheet.sheet.bytes.now ≡ self.old.sheet.sheet.bytes.now }
        ensures read { MatchResult result (λ arcs. ChainRead self.new.sheet.sheet.bytes.now (number first) self.old.marks.marked self.new.marks.marked arcs.items) (Stopped (MarkedTwice self.new.sheet.sheet.bytes.now (number first) self.old.marks.marked self.new.marks.marked)) }
    {
        let mut arcs = Vec::new(self.heap);
        let mut next = first;
        while let Some(k) = next {
            if !self.marks.mark(k) {
                return Err(ReadFault::Refused(SheetFault::Repeated(k)));
            }
            let link = self.sheet.link(k);
            arcs.push(link.arc)?;
            next = link.next;
        }
        Ok(arcs)
    }

    // Position v with its arcs.
    fn position(&mut self, v: usize) -> Result<Position, ReadFault>
        requires { v < positions self.old.sheet.sheet.bytes.now }
        ensures same_sheet { self.new.sheet.sheet.bytes.now ≡ self.old.sheet.sheet.bytes.now }
        ensures read { MatchResult result (λ p. PositionRead self.new.sheet.sheet.bytes.now v self.old.marks.marked self.new.marks.marked (site_of p)) (Stopped (MarkedTwice self.new.sheet.sheet.bytes.now (first_record self.new.sheet.sheet.bytes.now v) self.old.marks.marked self.new.marks.marked)) }
    {
        let SheetPosition {
            mover,
            name,
            first_record,
        } = self.sheet.position(v);
        let arcs = mended(v, mover, self.chain(first_record)?)?;
        Ok(Position { mover, name, arcs })
    }

    // All positions in order; the marks are then of the records in their chains.
    pub(crate) fn all_positions(&mut self) -> Result<Vec<Position>, ReadFault>
        requires { self.old.marks.marked ≡ replicate 49 false }
        ensures same_sheet { self.new.sheet.sheet.bytes.now ≡ self.old.sheet.sheet.bytes.now }
        ensures read { MatchResult result (λ ps. AllRead self.new.sheet.sheet.bytes.now (positions self.new.sheet.sheet.bytes.now) self.new.marks.marked (sites_of ps.items)) (Stopped (ComesAgain self.new.sheet.sheet.bytes.now)) }
    {
        let mut all = Vec::new(self.heap);
        // a loop and no chain of iterators, since each position adds to the marks
        for v in 0..self.sheet.positions() {
            all.push(self.position(v)?)?;
        }
        Ok(all)
    }

    // The lowest record in none of the chains gone through.
    pub(crate) fn lowest_unused(&self) -> Option<usize>
        ensures { let marked = λ (k : ℕ). slice_index_or self.now.marks.marked k false ≡ true
            in MatchOption result ((k : ℕ) → 1 ≤ k → k < records self.now.sheet.sheet.bytes.now + 1 → marked k) (LowestWithout marked 1 (records self.now.sheet.sheet.bytes.now + 1)) }
    {
        self.marks.lowest_unmarked(self.sheet.records())
    }
}

// The arcs, or where there are none an arc to the position itself by which its mover loses.
fn mended(v: usize, mover: Player, mut arcs: Vec<Arc>) -> Result<Vec<Arc>, ReadFault>
    ensures { MatchResult result (λ all. all.items ≡ mended v mover arcs.items) (λ f. f ≡ Memory) }
{
    if arcs.is_empty() {
        arcs.push(Arc {
            target: v,
            priority: losing(mover),
        })?;
    }
    Ok(arcs)
}

// The priority of an arc by which the player loses.
fn losing(mover: Player) -> u8
    ensures { result ≡ losing mover }
{
    u8::from(mover.rival())
}
