// Events, markers and the parser: what every reader is written in. A parser goes over a text's token words and writes to the event words that it is
// lent. Once it stopped, every function here leaves all as it is.

#![tactic(auto)]

ghost use Rattle.std.specs.Prelude.{◌≡◌, ℕ, ◌≤◌, ◌<◌, List, [], ◌∷◌, length, drop, ltb};
ghost use Rattle.predictive.specs.Forest.{message};
ghost use Rattle.predictive.specs.Grammar.{Choice, one, two, tok, opt, any};
ghost use Rattle.predictive.specs.Reader.{expected, unmet};
ghost use Rattle.predictive.specs.Events as E;
ghost use Rattle.aadl.specs.Symbols as Sym;
ghost use Rattle.aadl.specs.Encoding.{event_word, words_for, room as room_in};
ghost use Rattle.aadl.specs.Section.{property_name};
ghost use Rattle.parser.specs.Input as I;
ghost use Rattle.parser.specs.Buffer as B;
ghost use Rattle.parser.specs.State as S;
ghost use Rattle.parser.specs.Reads.{heads_of};

use aadl::Refusal;
use classes::peek;
use codec::{
    EVENT_WORDS, error_event, finish_event, kind_in, length_in, second_word, start_word,
    token_event, with_parent,
};
use syntax_kind::{COLON, ERROR, IDENT, is_keyword, is_trivia};

// The symbol of a C-style literal, and of the end: no token has either as its kind.
pub const C_STYLE: u32 = 258;

pub const END: u32 = 257;

// The refusals by which a parser stops: no room for an event, and, by its readers, an opener too many.
const NO_ROOM: usize = Refusal::NoEventWord as usize;

pub const TOO_DEEP: usize = Refusal::TooDeep as usize;

// A text and its token words, and a place among these: the number of the next token's word, and where that token starts in the text.
#[derive(Clone, Copy)]
pub struct Tokens<'a> {
    pub text: &'a [u8],
    pub words: &'a [u32],
    pub at: usize,
    pub byte: usize,
}

// A parser: the tokens from where reading stands, the lent event words, how many non-trivia tokens are taken, events pushed and openers left, and the
// number of the refusal that stopped reading, or 0. That is a number, since `stop` takes each from 1 on. And for how many events the lent words have room.
#[derive(Drop)]
pub struct Parser<'a> {
    pub tokens: Tokens<'a>,
    pub events: &'a mut [u32],
    pub taken: usize,
    pub used: usize,
    pub left: usize,
    pub stop: usize,
    pub room: usize,
    ghost holds_so_many: { room ≡ room_in (length events.now) },
}

// Where a parser stands, and what it has counted: the number of the next token's word and where that token starts, the non-trivia tokens taken, the
// events pushed, the openers left, and the number of the refusal that stopped reading, or 0.
#[derive(Clone, Copy)]
pub struct Counters {
    pub at: usize,
    pub byte: usize,
    pub taken: usize,
    pub used: usize,
    pub left: usize,
    pub stop: usize,
}

// The Start of a node that is open.
#[derive(Clone, Copy)]
pub struct Marker(usize);

// The Start of a node that is complete.
#[derive(Clone, Copy)]
pub struct CompletedMarker(usize);

// TOKENS

// Where the token after the word w starts that starts at a byte of the text.
fn past(text: &[u8], byte: usize, w: u32) -> usize
    ensures { result ≡ I.past text.now byte w }
{
    let n = text.len();
    if byte < n {
        let e = byte + length_in(w);
        if e < n {
            return e;
        }
    }
    n
}

fn trivia_at(words: &[u32], at: usize) -> bool
    ensures { result ≡ I.trivia_ahead (drop at words.now) }
{
    if at < words.len() {
        return is_trivia(kind_in(words[at]));
    }
    false
}

// The kind of a symbol's token.
fn shown(symbol: u32) -> u32
    ensures { result ≡ Sym.shown symbol }
{
    if symbol == C_STYLE {
        return ERROR;
    }
    symbol
}

impl<'a> Tokens<'a> {
    ghost use Rattle.parser.specs.Parsers.{source, cursor, moved_to, skipped, next_place, first_of};

    // At the first token that is no trivia.
    pub fn new(text: &'a [u8], words: &'a [u32]) -> Tokens<'a>
        ensures { result ≡ first_of text.entry words.entry }
    {
        let all = Tokens {
            text,
            words,
            at: 0,
            byte: 0,
        };
        all.skip()
    }

    // From here on at the first token that is no trivia. By hand, as in `next`: a fold would carry both places and stop at
    // the first other token, and that is no plainer.
    fn skip(self) -> Tokens<'a>
        ensures { result ≡ moved_to (skipped self.entry) self.entry }
    {
        let mut at = self.at;
        let mut byte = self.byte;
        while at < self.words.len() {
            let w = self.words[at];
            if !is_trivia(kind_in(w)) {
                return Tokens { at, byte, ..self };
            }
            byte = past(self.text, byte, w);
            at += 1;
        }
        Tokens { at, byte, ..self }
    }

    // Behind the token where these stand, and the trivia behind it.
    #[inline(always)]
    fn next(self) -> Tokens<'a>
        ensures { result ≡ moved_to (next_place self.entry) self.entry }
    {
        let mut at = self.at;
        let mut byte = self.byte;
        while at < self.words.len() {
            byte = past(self.text, byte, self.words[at]);
            at += 1;
            if !trivia_at(self.words, at) {
                return Tokens { at, byte, ..self };
            }
        }
        Tokens { at, byte, ..self }
    }

    // Passes the token where these stand.
    pub fn pass(&mut self)
        ensures { self.new ≡ moved_to (next_place self.old) self.old }
    {
        *self = self.next();
    }

    // The symbol where these stand, or the end's.
    #[inline(always)]
    pub fn current(self) -> u32
        ensures { result ≡ I.nth (source self.entry) (cursor self.entry) 0 }
    {
        if self.at < self.words.len() {
            let kind = kind_in(self.words[self.at]);
            if kind == ERROR {
                if peek(self.text, self.byte) == b'0' {
                    return C_STYLE;
                }
            }
            return kind;
        }
        END
    }

    // The symbol n tokens further on, or the end's.
    pub fn nth(self, n: usize) -> u32
        ensures { result ≡ I.nth (source self.entry) (cursor self.entry) n }
    {
        let mut t = self;
        for _ in 0..n {
            t.pass();
        }
        t.current()
    }

    // The kind of the token where these stand, or the end's symbol: a C-style literal shows ERROR, so the text is not asked.
    pub fn kind(self) -> u32
        ensures { (text : List ℕ) → result ≡ Sym.shown (I.nth (I.input text self.entry.words.now) (cursor self.entry) 0) }
    {
        if self.at < self.words.len() {
            return kind_in(self.words[self.at]);
        }
        END
    }
}

// THE LENT EVENT WORDS

// The most events that are pushed.
const MOST: usize = 32768;

// One more is taken, up to as many as there can be events.
fn one_more(n: usize) -> usize
    ensures { result ≡ S.one_more n }
{
    if n < MOST { n + 1 } else { n }
}

// For how many events words have room: two words for each.
fn room(events: &[u32]) -> usize
    ensures { result ≡ room_in (length events.now) }
{
    (events.len() / EVENT_WORDS).min(MOST)
}

// Whether the event with a number has a first word: as many have one as half of the words, rounded up.
fn has_first(events: &[u32], number: usize) -> bool
    ensures { result ≡ ltb (words_for number) (length events.now) }
{
    number < events.len() - events.len() / 2
}

// Gives the Start of the event with a number its kind, in its first word.
fn name_start(events: &mut [u32], place: usize, kind: u32)
    requires { kind < 256 }
    ensures { events.new ≡ B.named place kind events.old }
{
    if has_first(events, place) {
        events[place * EVENT_WORDS] = start_word(kind);
    }
}

// Gives the Start of the event with a number a forward parent so far on, in its first word.
fn link_start(events: &mut [u32], place: usize, distance: usize)
    requires { distance < 65536 }
    ensures { events.new ≡ B.linked place distance events.old }
{
    if has_first(events, place) {
        let at = place * EVENT_WORDS;
        events[at] = with_parent(events[at], distance);
    }
}

// PARSERS
//
// What is done for each token or event is put into its caller: the call would cost as much.

impl<'a> Parser<'a> {
    ghost use Rattle.parser.specs.Parsers.{source, counters, Began, stand, Steps, Opens, ReadsPart, ReadsWithin};

    // At the first token that is no trivia.
    pub fn new(text: &'a [u8], words: &'a [u32], events: &'a mut [u32], left: usize) -> Parser<'a>
        ensures { Began text.entry words.entry events.entry left result }
    {
        let room = room(events);
        Parser {
            tokens: Tokens::new(text, words),
            events,
            taken: 0,
            used: 0,
            left,
            stop: 0,
            room,
        }
    }

    // A copy of what it has counted.
    pub fn counters(&self) -> Counters
        ensures { result ≡ counters self.now }
    {
        Counters {
            at: self.tokens.at,
            byte: self.tokens.byte,
            taken: self.taken,
            used: self.used,
            left: self.left,
            stop: self.stop,
        }
    }

    // The symbol where the parser stands; the end's once it stopped.
    #[inline(always)]
    pub fn current(&self) -> u32
        ensures { result ≡ I.nth (source self.now.tokens) (counters self.now) 0 }
    {
        if self.stop != 0 {
            return END;
        }
        self.tokens.current()
    }

    pub fn nth(&self, n: usize) -> u32
        ensures { result ≡ I.nth (source self.now.tokens) (counters self.now) n }
    {
        if self.stop != 0 {
            return END;
        }
        self.tokens.nth(n)
    }

    // The kind of the token where the parser stands, or the end's symbol.
    pub fn kind(&self) -> u32
        ensures { (text : List ℕ) → result ≡ Sym.shown (I.nth (I.input text self.now.tokens.words.now) (counters self.now) 0) }
    {
        if self.stop != 0 {
            return END;
        }
        self.tokens.kind()
    }

    #[inline(always)]
    pub fn at(&self, kind: u32) -> bool
        requires { kind < 256 }
        ensures { result ≡ stand (one kind ∷ []) self.now }
    {
        self.current() == kind
    }

    // One of two kinds stands.
    #[inline(always)]
    pub fn at_either(&self, kind: u32, other: u32) -> bool
        requires { (kind < 256) × (other < 256) }
        ensures { result ≡ stand (one kind ∷ one other ∷ []) self.now }
    {
        let symbol = self.current();
        (symbol == kind) | (symbol == other)
    }

    // Two kinds in a row stand.
    pub fn at_pair(&self, kind: u32, next: u32) -> bool
        requires { (kind < 256) × (next < 256) }
        ensures { result ≡ stand (two kind next ∷ []) self.now }
    {
        if self.at(kind) {
            return self.nth(1) == next;
        }
        false
    }

    // A name that may begin an association: an identifier, or a keyword before `:`.
    pub fn at_name(&self) -> bool
        ensures { (m : ℕ) → result ≡ stand (heads_of (property_name m)) self.now }
    {
        let kind = self.current();
        if kind == IDENT {
            return true;
        }
        if is_keyword(kind) {
            return self.nth(1) == COLON;
        }
        false
    }

    // Passes the token where the parser stands, and counts it, with no event; does nothing once it stopped. Among the crates here none does so, since
    // `Tokens` serve who counts nothing.
    pub fn pass(&mut self)
        ensures { Steps (λ source. S.pass source) self.old self.new }
    {
        if self.stop == 0 {
            self.tokens.pass();
            self.taken = one_more(self.taken);
        }
    }

    // Stops the parser, by the number of the refusal.
    pub fn stop(&mut self, number: usize)
        requires { 1 ≤ number }
        ensures { Steps (λ _. S.halt number) self.old self.new }
    {
        if self.stop == 0 {
            self.stop = number;
        }
    }

    // Writes the event of a word, for which there is room: that word, and the number of the next untaken token.
    #[inline(always)]
    fn append(&mut self, w: u32)
        requires { self.old.used < B.room self.old.events.now }
        ensures { (e : E.Event) → w ≡ event_word e → Steps (λ _. S.appended e) self.old self.new }
    {
        let used = self.used;
        let at = used * EVENT_WORDS;
        let second = second_word(self.tokens.at);
        let events = &mut *self.events;
        events[at] = w;
        events[at + 1] = second;
        self.used = used + 1;
    }

    // Pushes the event of a word, or stops for lack of room.
    #[inline(always)]
    fn push_or_stop(&mut self, w: u32)
        ensures { (e : E.Event) → w ≡ event_word e → Steps (λ _. S.push_or_stop e) self.old self.new }
    {
        if self.used < self.room {
            self.append(w);
        } else {
            self.stop = NO_ROOM;
        }
    }

    // Pushes the event of a word, unless the parser stopped.
    #[inline(always)]
    fn push(&mut self, w: u32)
        ensures { (e : E.Event) → w ≡ event_word e → Steps (λ _. S.push e) self.old self.new }
    {
        if self.stop == 0 {
            self.push_or_stop(w);
        }
    }

    pub fn error(&mut self, m: u32)
        requires { m < 512 }
        ensures { Steps (λ _. S.push (E.error (message m))) self.old self.new }
    {
        self.push(error_event(m));
    }

    #[inline(always)]
    pub fn start(&mut self) -> Marker
        ensures { Opens (S.push (E.start 0 0)) self.old result self.new }
    {
        let m = Marker(self.used);
        self.push(start_word(0));
        m
    }

    // Takes the token where the parser stands as one of a kind: its event is pushed, and it is passed. The next token is looked for before the event
    // is written, since for all that the compiler knows that writes over the token words.
    #[inline(always)]
    fn take(&mut self, kind: u32)
        requires { kind < 512 }
        ensures { Steps (λ source. S.enter source (E.token kind)) self.old self.new }
    {
        if self.stop != 0 {
            return;
        }
        if self.used < self.room {
            let next = self.tokens.next();
            let taken = one_more(self.taken);
            self.append(token_event(kind));
            self.tokens.at = next.at;
            self.tokens.byte = next.byte;
            self.taken = taken;
        } else {
            self.stop = NO_ROOM;
        }
    }

    #[inline(always)]
    pub fn bump_any(&mut self)
        ensures { ReadsPart any self.old self.new }
    {
        let symbol = self.current();
        if symbol != END {
            self.take(shown(symbol));
        }
    }

    #[inline(always)]
    pub fn eat(&mut self, kind: u32)
        requires { kind < 256 }
        ensures { (d : ℕ) (c : Choice) → ReadsWithin d (opt c (tok unmet (kind ∷ []))) self.old self.new }
    {
        if self.at(kind) {
            self.take(kind);
        }
    }

    // The parser after the token of a kind where it stands, or after a message.
    #[inline(always)]
    fn token_or_error(&mut self, kind: u32, m: u32)
        requires { (kind < 256) × (m < 512) }
        ensures { ReadsPart (tok m (kind ∷ [])) self.old self.new }
    {
        if self.at(kind) {
            self.take(kind);
        } else {
            self.error(m);
        }
    }

    // .. or after the message that it is missing.
    #[inline(always)]
    pub fn expect(&mut self, kind: u32)
        requires { kind < 256 }
        ensures { ReadsPart (tok (expected kind) (kind ∷ [])) self.old self.new }
    {
        self.token_or_error(kind, 256 + kind);
    }

    // The Rust panics where the token does not stand. Here that is message 0, which no reading of a section has (theorem
    // `never-message_0`, aadl `NeverMissed`).
    #[inline(always)]
    pub fn bump(&mut self, kind: u32)
        requires { kind < 256 }
        ensures { ReadsPart (tok unmet (kind ∷ [])) self.old self.new }
    {
        self.token_or_error(kind, 0);
    }
}

// MARKERS

impl Marker {
    ghost use Rattle.parser.specs.Parsers.{Closes};

    #[inline(always)]
    pub fn complete(self, p: &mut Parser<'_>, kind: u32) -> CompletedMarker
        requires { kind < 256 }
        ensures { Closes self kind p.old result p.new }
    {
        if p.stop == 0 {
            name_start(p.events, self.0, kind);
            p.push_or_stop(finish_event());
        }
        CompletedMarker(self.0)
    }
}

impl CompletedMarker {
    ghost use Rattle.parser.specs.Parsers.{Opens};

    #[inline(always)]
    pub fn precede(self, p: &mut Parser<'_>) -> Marker
        ensures { Opens (S.precede self.0) p.old result p.new }
    {
        let m = p.start();
        if p.stop == 0 && self.0 < m.0 {
            link_start(p.events, self.0, m.0 - self.0);
        }
        m
    }
}
