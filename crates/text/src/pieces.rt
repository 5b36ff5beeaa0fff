// One piece of text after another, written into a lent output. Past the text so far the output stays as it was.
ghost use Rattle.std.specs.Prelude.{◌≡◌, ◌+◌, ◌≤◌, length, decimal};
ghost use Rattle.text.specs.Output.{Appended};

use itoa::Buffer;

// The text so far: the first `written` bytes of a lent output.
// outputs are lent, so the length stands beside
#[derive(Drop)]
pub struct Text<'a> {
    pub output: &'a mut [u8],
    pub written: usize,
}

impl<'a> Text<'a> {
    // No text yet.
    pub fn over(output: &'a mut [u8]) -> Text<'a>
        ensures same_reference { result.output.ghost_name ≡ output.entry.ghost_name }
        ensures empty { result.written ≡ 0 }
        ensures unchanged { result.output.now ≡ output.old }
    {
        Text { output, written: 0 }
    }

    // Where the text ends once the piece is added.
    fn end_with(&self, piece: &[u8]) -> usize
        requires { self.now.written + length piece.now ≤ length self.now.output.now }
        ensures { result ≡ self.now.written + length piece.now }
    {
        self.written + piece.len()
    }

    pub fn push(&mut self, piece: &[u8])
        requires { self.old.written + length piece.now ≤ length self.old.output.now }
        ensures same_reference { self.new.output.ghost_name ≡ self.old.output.ghost_name }
        ensures room { length self.new.output.now ≡ length self.old.output.now }
        ensures appended { Appended self.old.written piece.now self.old.output.now self.new.written self.new.output.now }
    {
        let end = self.end_with(piece);
        self.output[self.written..end].copy_from_slice(piece);
        self.written = end;
    }

    // A number as `{}` writes it.
    pub fn push_decimal(&mut self, n: usize)
        requires { self.old.written + length (decimal n) ≤ length self.old.output.now }
        ensures same_reference { self.new.output.ghost_name ≡ self.old.output.ghost_name }
        ensures room { length self.new.output.now ≡ length self.old.output.now }
        ensures appended { Appended self.old.written (decimal n) self.old.output.now self.new.written self.new.output.now }
    {
        self.push(Buffer::new().format(n).as_bytes());
    }
}
