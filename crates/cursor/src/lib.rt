// A text and a position in it, kept together, as the Rust's Cursor has them. Past the end of a text a byte reads as 0, so that no function
// asks anything of its caller.

#![tactic(auto)]

ghost use Rattle.std.specs.Prelude.{◌≡◌, ◌+◌};
ghost use Rattle.aadl.specs.Bytes as bytes;
ghost use Rattle.cursor.specs.Window.{window_of};

use classes::peek;

#[derive(Clone, Copy)]
pub struct Cursor<'a> {
    pub input: &'a [u8],
    pub pos: usize,
}

// What a scanner looks at: the byte at its position and the two after it.
#[derive(Clone, Copy)]
pub struct Window {
    pub first: u8,
    pub second: u8,
    pub third: u8,
}

impl<'a> Cursor<'a> {
    // A cursor at a position, which may lie past the end.
    pub fn new(input: &'a [u8], pos: usize) -> Cursor<'a>
        ensures { (result.input ≡ input.entry) × (result.pos ≡ pos) }
    {
        Cursor { input, pos }
    }

    // The byte at the position.
    pub fn current(self) -> u8
        ensures { result ≡ bytes.peek self.entry.input.now self.entry.pos }
    {
        peek(self.input, self.pos)
    }

    // The byte n places after the position.
    pub fn peek(self, n: usize) -> u8
        ensures { result ≡ bytes.peek self.entry.input.now (self.entry.pos + n) }
    {
        if self.pos < self.input.len() && n < self.input.len() - self.pos {
            return self.input[self.pos + n];
        }
        0
    }
}

// The window at a position.
pub fn window_at(s: &[u8], pos: usize) -> Window
    ensures { result ≡ window_of s.now pos }
{
    let c = Cursor::new(s, pos);
    Window {
        first: c.current(),
        second: c.peek(1),
        third: c.peek(2),
    }
}
