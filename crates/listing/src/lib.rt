// The listing of a text, whole: `begin` makes the section call, `next_piece` gives the next bytes, and the pieces end to end are 01's listing
// (proofs/EndToEnd). A program reads, asks for pieces and writes them; all that lies between is here.

#![tactic(auto)]

ghost use Rattle.std.specs.Prelude.{◌≡◌, length};
ghost use Rattle.aadl.specs.Limits.{base, Allowed};
ghost use Rattle.parser.specs.Input.{input};
ghost use Rattle.listing.specs.Positions.{begin as begin-at, step};
ghost use Rattle.listing.specs.Pieces.{left, given, lines_at, Gives, Puts, GoesOn, Begun};

use aadl::{Answer, Limits};
use codec::{EVENT_WORDS, class_in, events_told, first_word};
use lexer::BASE;
use listing_lines::{put_first, put_line};
use parser::Tokens;
use positions::{Spot, first_spot, spot_at};
use section::property_section_within;
use writing::Writer;

// How many bytes of a text are read: one more than may be, so that a longer text is refused for that one.
pub const READ: usize = 32769;

// "The program lends 16,384 token words and words for 8,192 events", two words for each.
pub const TOKENS: usize = 16384;

pub const EVENTS: usize = 16384;

// The room that is left for a line: none is longer.
const LINE: usize = 80;

// Where a listing stands among the events: behind the tokens that were taken, and at the spot of the next one.
#[derive(Clone, Copy)]
pub struct Position {
    pub at: usize,
    pub byte: usize,
    pub spot: Spot,
}

// Where a listing stands: how many bytes were read, what the section call answered, whether the first line is given, and before which event.
#[derive(Clone, Copy)]
pub struct Listing {
    pub bytes: usize,
    pub answer: Answer,
    pub begun: bool,
    pub event: usize,
    pub position: Position,
}

impl Position {
    // Before the first event.
    fn first(src: &[u8], toks: &[u32]) -> Position
        ensures { result ≡ begin-at (input src.now toks.now) }
    {
        let t = Tokens::new(src, toks);
        let spot = spot_at(src, first_spot(), t.byte);
        Position {
            at: t.at,
            byte: t.byte,
            spot,
        }
    }

    // After the event of a word. A Token's takes a token.
    fn behind(self, src: &[u8], toks: &[u32], word: u32) -> Position
        ensures { result ≡ step (input src.now toks.now) word self }
    {
        if class_in(word) == 1 {
            let mut t = Tokens {
                text: src,
                words: toks,
                at: self.at,
                byte: self.byte,
            };
            t.pass();
            let spot = spot_at(src, self.spot, t.byte);
            return Position {
                at: t.at,
                byte: t.byte,
                spot,
            };
        }
        self
    }
}

impl Listing {
    // Writes the lines of events from where the listing stands, while there is room for a line.
    fn put_lines(&mut self, src: &[u8], toks: &[u32], words: &[u32], w: &mut Writer)
        ensures lines { Puts (lines_at src.now toks.now words.now self.old) (lines_at src.now toks.now words.now self.new) w.old w.new }
        ensures stays { GoesOn self.old self.new }
    {
        for i in self.event..events_told(words) {
            if w.room() < LINE {
                return;
            }
            let word = first_word(words, i);
            put_line(w, i, word, self.position.spot);
            self.position = self.position.behind(src, toks, word);
            self.event = i + 1;
        }
    }

    // Writes the lines of events from where the listing stands, of the bytes that were read and of the words that its answer counts.
    fn more(
        &mut self,
        text: &[u8; READ],
        tokens: &[u32; TOKENS],
        events: &[u32; EVENTS],
        w: &mut Writer,
    )
        ensures { Puts (left text.now tokens.now events.now (given self.old)) (left text.now tokens.now events.now self.new) w.old w.new }
    {
        let n = self.bytes.min(READ);
        let t = self.answer.tokens.min(TOKENS);
        let e = self.answer.events.min(EVENTS / EVENT_WORDS) * EVENT_WORDS;
        self.begun = true;
        self.put_lines(&text[..n], &tokens[..t], &events[..e], w);
    }

    // Writes the next lines of a listing, the first one too if it is not given.
    fn put_piece(
        &mut self,
        text: &[u8; READ],
        tokens: &[u32; TOKENS],
        events: &[u32; EVENTS],
        w: &mut Writer,
    )
        ensures { Puts (left text.now tokens.now events.now self.old) (left text.now tokens.now events.now self.new) w.old w.new }
    {
        if self.begun {
            self.more(text, tokens, events, w);
            return;
        }
        if w.room() < LINE {
            return;
        }
        put_first(w, self.answer);
        self.more(text, tokens, events, w);
    }

    // The next bytes of a listing, which then stands behind them, and how many they are: whole lines, as many as the lent bytes take. Text and words are lent
    // to each call and are no fields, since it is a promise of `begin` what the words hold behind it (`Begun`).
    pub fn next_piece(
        &mut self,
        text: &[u8; READ],
        tokens: &[u32; TOKENS],
        events: &[u32; EVENTS],
        out: &mut [u8],
    ) -> usize
        ensures { Gives text tokens events out (length out.old) 0 self.old result self.new }
    {
        let mut w = Writer::new(out, 0);
        self.put_piece(text, tokens, events, &mut w);
        w.at
    }
}

// Makes the section call within limits on the first bytes of a text, as many as were read, with the words that are lent, and stands before the
// first line: for every text of which these are the bytes that have room, the lines that are left are its listing.
fn begin_within(
    text: &[u8; READ],
    bytes: usize,
    tokens: &mut [u32; TOKENS],
    events: &mut [u32; EVENTS],
    limits: Limits,
) -> Listing
    requires { Allowed limits }
    ensures { Begun limits text.now bytes tokens.old events.old result tokens.new events.new }
{
    let text: &[u8] = text;
    let n = bytes.min(READ);
    let src = &text[..n];
    let a = property_section_within(src, tokens, events, limits);
    let t = a.tokens.min(TOKENS);
    let toks: &[u32] = tokens;
    let c = Position::first(src, &toks[..t]);
    Listing {
        bytes,
        answer: a,
        begun: false,
        event: 0,
        position: c,
    }
}

// Makes the section call on the first bytes of a text, as many as were read, with the words that are lent, and stands before the first line: for every
// text of which these are the bytes that have room, the lines that are left are its listing.
pub fn begin(
    text: &[u8; READ],
    bytes: usize,
    tokens: &mut [u32; TOKENS],
    events: &mut [u32; EVENTS],
) -> Listing
    ensures { Begun base text.now bytes tokens.old events.old result tokens.new events.new }
{
    begin_within(text, bytes, tokens, events, BASE)
}
