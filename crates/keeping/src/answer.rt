// What the registers keep, and how many raises it took to find out. The flags past the arena's positions mean nothing. An array and
// no fixed vector, since a `Keeping` may be copied and such a vector may not.
#[derive(Clone, Copy, Debug)]
pub struct Keeping {
    pub positions: [bool; 16],
    pub raises: usize,
}
