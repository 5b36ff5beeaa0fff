// The powers of n, computed once, and the climb by them.
ghost use Rattle.std.specs.Prelude.{◌≡◌, ℕ, ◌+◌, ◌*◌, ◌^◌, ◌<◌, ◌≤◌, [], slice_index};
ghost use Rattle.heights.specs.Climb.{lost, step_of, climb};
ghost use Rattle.heights.specs.Heights.{due_for};

use game::Player;
use std::array;

// Heights for n positions and r registers: `limit` is the lost height n^(r+1), and `steps[i]` is n^i.
#[derive(Clone, Copy)]
pub struct Scale {
    n: usize,
    r: usize,
    limit: u32,
    steps: [u32; 6],
    ghost some: { 1 ≤ n },
    ghost low: { n ≤ 16 },
    ghost few: { r ≤ 5 },
    ghost whole: { limit ≡ n ^ (r + 1) },
    ghost each: { (i : ℕ) → i < 6 → slice_index steps i ≡ n ^ i },
}

impl Scale {
    // The powers of n up to n^(r+1).
    pub fn new(n: usize, r: usize) -> Scale
        requires some { 1 ≤ n }
        requires low { n ≤ 16 }
        requires few { r ≤ 5 }
        ensures n { result.n ≡ n }
        ensures r { result.r ≡ r }
    {
        let base = n as u32;
        let steps = array::from_fn(|i| base.pow(i as u32));
        let limit = base.pow(r as u32 + 1);
        Scale { n, r, limit, steps }
    }

    // The lost height.
    pub fn limit(&self) -> u32
        ensures { result ≡ lost self.now.n self.now.r }
    {
        self.limit
    }

    // The step of priority p.
    fn step(&self, p: u8) -> u32
        requires { p ≤ 2 * self.now.r + 1 }
        ensures { result ≡ step_of self.now.n p }
    {
        self.steps[usize::from(p) / 2]
    }

    // The climb from height x by priority p.
    pub fn climb(&self, x: u32, p: u8) -> u32
        requires { p ≤ 2 * self.now.r + 1 }
        ensures { result ≡ climb self.now.n self.now.r x p }
    {
        if x >= self.limit {
            return self.limit;
        }
        let step = self.step(p);
        let floor = x - x % step;
        if p % 2 == 0 { floor } else { floor + step }
    }

    // What is due where no arc asks anything.
    pub(crate) fn unasked(&self, mover: Player) -> u32
        ensures { result ≡ due_for mover (lost self.now.n self.now.r) [] }
    {
        match mover {
            Player::Even => self.limit,
            Player::Odd => 0,
        }
    }
}
