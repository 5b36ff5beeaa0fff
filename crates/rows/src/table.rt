// The binomials up to 15, as constants.
ghost use Rattle.std.specs.Prelude.{◌≡◌, ◌^◌, ◌<◌, ◌≤◌, [], true, length};
ghost use Rattle.rows.specs.Choose.{binomial_at, choose, keeps};

// C(a, b) in row a and column b.
static BINOMIALS: [[u16; 16]; 16] = [
    [1, 0, 0, 0, 0, 0, 0, 0, 0, 0, 0, 0, 0, 0, 0, 0],
    [1, 1, 0, 0, 0, 0, 0, 0, 0, 0, 0, 0, 0, 0, 0, 0],
    [1, 2, 1, 0, 0, 0, 0, 0, 0, 0, 0, 0, 0, 0, 0, 0],
    [1, 3, 3, 1, 0, 0, 0, 0, 0, 0, 0, 0, 0, 0, 0, 0],
    [1, 4, 6, 4, 1, 0, 0, 0, 0, 0, 0, 0, 0, 0, 0, 0],
    [1, 5, 10, 10, 5, 1, 0, 0, 0, 0, 0, 0, 0, 0, 0, 0],
    [1, 6, 15, 20, 15, 6, 1, 0, 0, 0, 0, 0, 0, 0, 0, 0],
    [1, 7, 21, 35, 35, 21, 7, 1, 0, 0, 0, 0, 0, 0, 0, 0],
    [1, 8, 28, 56, 70, 56, 28, 8, 1, 0, 0, 0, 0, 0, 0, 0],
    [1, 9, 36, 84, 126, 126, 84, 36, 9, 1, 0, 0, 0, 0, 0, 0],
    [1, 10, 45, 120, 210, 252, 210, 120, 45, 10, 1, 0, 0, 0, 0, 0],
    [
        1, 11, 55, 165, 330, 462, 462, 330, 165, 55, 11, 1, 0, 0, 0, 0,
    ],
    [
        1, 12, 66, 220, 495, 792, 924, 792, 495, 220, 66, 12, 1, 0, 0, 0,
    ],
    [
        1, 13, 78, 286, 715, 1287, 1716, 1716, 1287, 715, 286, 78, 13, 1, 0, 0,
    ],
    [
        1, 14, 91, 364, 1001, 2002, 3003, 3432, 3003, 2002, 1001, 364, 91, 14, 1, 0,
    ],
    [
        1, 15, 105, 455, 1365, 3003, 5005, 6435, 6435, 5005, 3003, 1365, 455, 105, 15, 1,
    ],
];

// The table keeps the rule of binomials, which is tested over all of it at once.
fn table() -> &'static [[u16; 16]; 16]
    ensures whole { length result.now ≡ 16 }
    ensures lawful { keeps [] result.now ≡ true }
{
    &BINOMIALS
}

// C(a, b), read from the table: as a `usize` with a bound beside it, here and in what is made of it, since rows are counted in `usize`.
pub(crate) fn entry(a: usize, b: usize) -> usize
    requires left { a ≤ 15 }
    requires right { b ≤ 15 }
    ensures value { result ≡ choose a b }
    ensures small { result < 2 ^ 16 }
{
    usize::from(table()[a][b])
}

// How many ways there are to choose b things among a, where neither number is over 15.
pub fn binomial(a: usize, b: usize) -> Option<usize>
    ensures { result ≡ binomial_at a b }
{
    (a <= 15 && b <= 15).then(|| entry(a, b))
}
