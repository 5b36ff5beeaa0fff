// Relations between positions below 16: which positions reach which, by Warshall's rounds, and the walks that one more move closes.
ghost use Rattle.std.specs.Prelude.{◌≡◌, ℕ, ◌<◌, ◌≤◌, true, false, ◌&&◌, ◌||◌, ◌==◌, slice_index_or};
ghost use Rattle.toolkit.specs.Reachability.{reach};
ghost use Rattle.plans.specs.Findings.{Tells};
ghost use Rattle.plans.specs.Marks.{Found};
ghost use Rattle.plans.specs.Relations.{related, GivenBy, closes, ClosesFrom, SomeCloses};

use std::array;

// One row for each position, with a cell for each that it may be related to.
#[derive(Clone, Copy)]
pub(crate) struct Relation {
    pub(crate) rows: [[bool; 16]; 16],
}

impl Relation {
    // The relation that a test of two positions gives.
    pub(crate) fn of<F: Fn(usize, usize) -> bool>(test: F) -> Relation
        requires { (u v : ℕ) → u < 16 → v < 16 → F.pre test u v }
        ensures { (u v : ℕ) → u < 16 → v < 16 → F.post test u v (related result u v) }
    {
        let rows = array::from_fn(
            |u: usize|
                requires { (v : ℕ) → v < 16 → F.pre test u v }
                ensures { (v : ℕ) → v < 16 → F.post test u v (slice_index_or result v false) }
            { row(&test, u) },
        );
        Relation { rows }
    }

    // Whether u is related to v; what is not below 16 is not.
    fn has(&self, u: usize, v: usize) -> bool
        ensures { result ≡ related self.now u v }
    {
        self.rows
            .get(u)
            .and_then(|row| row.get(v))
            .copied()
            .unwrap_or(false)
    }

    // Each position related to itself besides.
    fn with_itself(&self) -> Relation
        ensures { GivenBy result (λ u v. (u == v) || related self.now u v) }
    {
        Relation::of(|u, v| u == v || self.has(u, v))
    }

    fn at_once_or(&self, k: usize, u: usize, v: usize) -> bool
        ensures { result ≡ (related self.now u v || (related self.now u k && related self.now k v)) }
    {
        self.has(u, v) || (self.has(u, k) && self.has(k, v))
    }

    // One round: the ways by k besides.
    fn through(&self, k: usize) -> Relation
        ensures { GivenBy result (λ u v. related self.now u v || (related self.now u k && related self.now k v)) }
    {
        Relation::of(|u, v| self.at_once_or(k, u, v))
    }

    // What is reached by any number of steps.
    pub(crate) fn closed(&self) -> Relation
        ensures { GivenBy result (reach 16 (related self.now)) }
    {
        // a loop: its invariant says what the rounds so far have reached
        let mut reached = self.with_itself();
        for k in 0..16 {
            reached = reached.through(k);
        }
        reached
    }

    // What is reached and the peaks go together from here on, and are no type of their own: two relations of one kind.
    // Whether the move from u to w, if it is a peak, closes a walk through v, where this relation says what is reached.
    fn closes(&self, peaks: &Relation, v: usize, u: usize, w: usize) -> bool
        ensures { result ≡ closes self.now peaks.now v u w }
    {
        peaks.has(u, w) && self.has(v, u) && self.has(w, v)
    }

    // Whether some peak from u closes a walk through v.
    fn closes_from(&self, peaks: &Relation, v: usize, u: usize) -> bool
        ensures { Tells result (ClosesFrom self.now peaks.now v u) }
    {
        (0..16).any(|w| self.closes(peaks, v, u, w))
    }

    // Whether some peak from anywhere closes a walk through v.
    fn some_closes(&self, peaks: &Relation, v: usize) -> bool
        ensures { Tells result (SomeCloses self.now peaks.now v) }
    {
        (0..16).any(|u| self.closes_from(peaks, v, u))
    }

    // The lowest of the first n positions through which some peak closes a walk.
    pub(crate) fn first_closed(&self, peaks: &Relation, n: usize) -> Option<usize>
        requires { n ≤ 16 }
        ensures { Found (λ v. (v < n) × SomeCloses self.now peaks.now v) result }
    {
        (0..n).find(|v| self.some_closes(peaks, *v))
    }
}

// Row u of the relation that a test gives.
fn row<F: Fn(usize, usize) -> bool>(test: &F, u: usize) -> [bool; 16]
    requires { (v : ℕ) → v < 16 → F.pre test.now u v }
    ensures { (v : ℕ) → v < 16 → F.post test.now u v (slice_index_or result v false) }
{
    array::from_fn(
        |v: usize|
            requires { F.pre test.now u v }
            ensures { F.post test.entry.now u v result }
        { test(u, v) },
    )
}
