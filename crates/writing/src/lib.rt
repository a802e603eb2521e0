// Text and numbers in decimal, written into lent bytes from a place on: the one piece by which programs make what they print. What has no room is left
// out, so that no caller owes anything; one that sees to room finds all that it put.

#![tactic(auto)]

ghost use Rattle.std.specs.Prelude.{◌-◌, ◌≤◌, ◌≡◌, [], ◌∷◌, length};
ghost use Rattle.aadl.specs.Listing.{decimal};
ghost use Rattle.writing.specs.SignedDecimal.{signed_decimal};

use itoa::{Buffer, Integer};

// Lent bytes, and the place behind what is written into them, which is never past their end. It is no `fmt::Write`: of `write!` std says what is written only where the answer is Ok, and
// of no writer that it is.
#[derive(Drop)]
pub struct Writer<'a> {
    pub out: &'a mut [u8],
    pub at: usize,
    ghost within: { at ≤ length out.now },
}

impl<'a> Writer<'a> {
    ghost use Rattle.writing.specs.Written.{Begins, Writes};

    // Writes into lent bytes from a place on.
    pub fn new(out: &'a mut [u8], at: usize) -> Writer<'a>
        ensures { Begins out.entry at result }
    {
        let at = at.min(out.len());
        Writer { out, at }
    }

    // How many bytes have room.
    pub fn room(&self) -> usize
        ensures { result ≡ length self.now.out.now - self.now.at }
    {
        self.out.len() - self.at
    }

    // Writes one byte.
    pub fn put_byte(&mut self, b: u8)
        ensures { Writes self.old (b ∷ []) self.new }
    {
        if self.at < self.out.len() {
            self.out[self.at] = b;
            self.at += 1;
        }
    }

    // Writes a text.
    pub fn put_text(&mut self, text: &[u8])
        ensures { Writes self.old text.now self.new }
    {
        for b in text {
            self.put_byte(*b);
        }
    }

    // Writes a number as the library prints it.
    pub fn put_integer<I: Integer>(&mut self, n: I)
        ensures { Writes self.old (I.text n) self.new }
    {
        let mut digits = Buffer::new();
        self.put_text(digits.format(n).as_bytes());
    }

    // Writes a number in decimal.
    pub fn put_decimal(&mut self, n: u64)
        ensures { Writes self.old (decimal n) self.new }
    {
        self.put_integer(n);
    }

    // Writes a signed number in decimal.
    pub fn put_signed(&mut self, v: i64)
        ensures { Writes self.old (signed_decimal v) self.new }
    {
        self.put_integer(v);
    }
}
