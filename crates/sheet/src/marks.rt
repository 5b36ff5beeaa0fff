// Which arc records the chains have reached so far.
ghost use Rattle.std.specs.Prelude.{◌≡◌, ℕ, ◌+◌, ◌<◌, ◌≤◌, true, false, not, replicate, MatchOption, slice_index_or, slice_set};
ghost use Rattle.game.specs.Lowest.{LowestWithout};

use std::mem;

// A mark for each of the record numbers 0 to 48.
#[derive(Drop)]
pub(crate) struct Marks {
    marked: [bool; 49],
}

impl Marks {
    pub(crate) fn new() -> Marks
        ensures { result.marked ≡ replicate 49 false }
    {
        Marks {
            marked: [false; 49],
        }
    }

    // Marks record k; false where it was marked before, as a set's `insert` answers.
    pub(crate) fn mark(&mut self, k: usize) -> bool
        requires { k < 49 }
        ensures fresh { result ≡ not (slice_index_or self.old.marked k false) }
        ensures marked { self.new.marked ≡ slice_set self.old.marked k true }
    {
        !mem::replace(&mut self.marked[k], true)
    }

    // Whether a record has a mark.
    fn is_marked(&self, number: usize) -> bool
        requires { number < 49 }
        ensures { result ≡ slice_index_or self.now.marked number false }
    {
        self.marked[number]
    }

    // The lowest of the first records that has no mark.
    pub(crate) fn lowest_unmarked(&self, records: usize) -> Option<usize>
        requires { records ≤ 48 }
        ensures { let marked = λ (k : ℕ). slice_index_or self.now.marked k false ≡ true
            in MatchOption result ((k : ℕ) → 1 ≤ k → k < records + 1 → marked k) (LowestWithout marked 1 (records + 1)) }
    {
        (1..records + 1).find(|k| !self.is_marked(*k))
    }
}
