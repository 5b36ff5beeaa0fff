// Finite mathematics that the theorems on games share: counting, sums, search, the pigeonhole principle, digits in a base,
// walks and reachability. Each function does nothing but have its theorem for a contract.
#![tactic(auto)]

ghost use Rattle.std.specs.Prelude.{ℕ, ◌<◌, ◌≤◌, Bool};
ghost use Rattle.toolkit.specs.Finite.{Twice};
ghost use Rattle.toolkit.specs.Laws.{Counting, Adding, LeastOrNone, Digits, Walking};
ghost use Rattle.toolkit.specs.Reachability.{ReachExact};

// How many numbers below n pass: at most n, monotone, additive over sets that are apart.
pub fn counting_laws()
    ensures { (n : ℕ) → Counting n }
{}

// A sum over the numbers below n is monotone, and bounded by n times the bound of its terms.
pub fn adding_laws()
    ensures { (n : ℕ) → Adding n }
{}

// Of the numbers below n there is a least one that a Bool function accepts, or it accepts none.
pub fn least_found()
    ensures { (n : ℕ) (accepts : ℕ → Bool) → LeastOrNone n accepts }
{}

// Of n + 1 numbers below n two are the same.
pub fn pigeonhole_principle()
    ensures { (n : ℕ) (f : ℕ → ℕ) → ((i : ℕ) → i ≤ n → f i < n) → Twice n f }
{}

// Numbers by their digits in base n: their bound, division by a power of n, and the order by the leading digits.
pub fn digits_laws()
    ensures { (n k : ℕ) → Digits n k }
{}

// Walks join, have a move of their highest priority, and close only where no rank falls and no set is entered for good.
pub fn walking_laws()
    ensures { (moves : ℕ → ℕ → ℕ → Bool) → Walking moves }
{}

// The Bool function reach says yes exactly where there is a walk.
pub fn reach_exact()
    ensures { (n : ℕ) (edge : ℕ → ℕ → Bool) (u v : ℕ) → ReachExact n edge u v }
{}
