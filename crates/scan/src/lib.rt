// The lexer's scanners, one for each sort of token, with the Rust's names, on the text and a position: each gives the token that begins
// there, as aadl's `token_of` has it, the one for numbers all of the number. `scan_token` goes by the first byte to the scanner of its sort,
// which asks for such a byte (`Begins`, of another sort for each) and does not look at it again.

#![tactic(auto)]

ghost use Rattle.std.specs.Prelude.{MatchOption, ◌≡◌, false, ◌&&◌, [], ◌∷◌, ◌+◌, ◌-◌, ◌≤◌, ◌<◌, length, drop, eqb};
ghost use Rattle.aadl.specs.Kinds.{#◌, WHITESPACE as WHITE, IDENT as NAME, INTEGER_LIT as INTEGER, STRING_LIT as STRING};
ghost use Rattle.aadl.specs.Bytes.{run_end, is_ident_continue, is_grouped};
ghost use Rattle.aadl.specs.Tokens.{token, quoted, unbased, exponent_end, radix_digit, based, real, integer, number_from, number_of, mark_of, token_of};
ghost use Rattle.scan.specs.Inner.{single, longest};
ghost use Rattle.scan.specs.Places.{Begins, Dashes, AllWord, LastOutside, last_gap, Bounds, Other};

use aadl::{Number, Quoted, Span, Token};
use classes::{
    BASED, BEGINS_OTHERS, DIGITS, EXPONENTS, GROUPED, HEX_DIGITS, SECOND, SPACES, WORD, has_byte,
    in_class, lead, next_byte, peek, run, run_end, sequence_at,
};
use cursor::window_at;
use keywords::from_keyword;
use syntax_kind::{
    ANNEX_CLOSE, ANNEX_OPEN, ARROW, BIDI_ARROW, BRACKET_ARROW, COLON_COLON, COMMENT, DASH_BRACKET,
    DOT_DOT, ERROR, FAT_ARROW, IDENT, INTEGER_LIT, PLUS_ARROW, REAL_LIT, STRING_LIT, WHITESPACE,
};

fn token(kind: u32, len: usize) -> Token
    ensures { result ≡ token kind len }
{
    Token {
        kind,
        len,
        closed: true,
    }
}

// WHITESPACE, COMMENTS, STRINGS

fn scan_whitespace(s: &[u8], at: usize) -> Token
    requires { Begins s.now at (# WHITE) }
    ensures { result ≡ token_of (drop at s.now) }
{
    token(WHITESPACE, run_end(s, at + 1, SPACES) - at)
}

// The comment whose `--` is at a place: up to the end of its line.
fn scan_comment(s: &[u8], at: usize) -> Token
    requires { Dashes s.now at }
    ensures { result ≡ token_of (drop at s.now) }
{
    token(COMMENT, next_byte(s, at + 2, b'\n') - at)
}

// What of the bytes from a place on belongs to the string whose opening quote is before them: up to the next quote that is not doubled, which
// closes it, or to the end. By hand: a doubled quote is two bytes, for which an iterator over bytes has to carry a flag, and that is no plainer.
fn quoted(s: &[u8], from: usize) -> Quoted
    ensures { result ≡ quoted false (drop from s.now) }
{
    let mut i = from;
    while i < s.len() {
        if s[i] == b'"' {
            if peek(s, i + 1) != b'"' {
                return Quoted {
                    len: i + 1 - from,
                    closed: true,
                };
            }
            i += 2;
        } else {
            i += 1;
        }
    }
    Quoted {
        len: i - from,
        closed: false,
    }
}

fn scan_string(s: &[u8], at: usize) -> Token
    requires { Begins s.now at (# STRING) }
    ensures { result ≡ token_of (drop at s.now) }
{
    let q = quoted(s, at + 1);
    Token {
        kind: STRING_LIT,
        len: q.len + 1,
        closed: q.closed,
    }
}

// NUMBERS

// Where the exponent that may stand at a place ends.
fn exponent(s: &[u8], i: usize) -> usize
    ensures { (result ≡ exponent_end s.now i) × (i ≤ result) }
{
    if in_class(peek(s, i), EXPONENTS) {
        let b = peek(s, i + 1);
        if (b == b'+') | (b == b'-') {
            return run_end(s, i + 2, DIGITS);
        }
        return run_end(s, i + 1, DIGITS);
    }
    i
}

// Whether a C-style radix letter stands, and a digit of that radix after it.
fn is_radix_digit(m: u8, b: u8) -> bool
    ensures { result ≡ radix_digit m b }
{
    (((m == b'x') | (m == b'X')) & in_class(b, HEX_DIGITS))
        | (((m == b'o') | (m == b'O')) & ((b'0' <= b) & (b <= b'7')))
        | (((m == b'b') | (m == b'B')) & ((b'0' <= b) & (b <= b'1')))
}

// Whether d digits, the first of them given, are just `0`, with a C-style radix letter and a digit of that radix after it.
fn is_c_style(first: u8, d: usize, m: u8, b: u8) -> bool
    ensures { result ≡ ((eqb d 1 && eqb first 48) && radix_digit m b) }
{
    d == 1 && first == b'0' && is_radix_digit(m, b)
}

// A number without a base, whose inner digits end at `e`.
fn unbased(kind: u32, len: usize, e: usize, exponent: bool) -> Number
    ensures { result ≡ unbased kind len e exponent }
{
    let closed = false;
    Number {
        kind,
        len,
        base: Span { begin: 0, end: 0 },
        inner: Span { begin: 0, end: e },
        closed,
        exponent,
    }
}

// The real number at a place, without a base, whose digits end at `e`.
fn scan_real(s: &[u8], at: usize, e: usize) -> Number
    requires { (at ≤ e) }
    ensures { result ≡ real (drop at s.now) (e - at) }
{
    let x = in_class(peek(s, e), EXPONENTS);
    unbased(REAL_LIT, exponent(s, e) - at, e - at, x)
}

// The number at a place that has a base, and inner digits from `i` on.
fn scan_based(s: &[u8], at: usize, i: usize) -> Number
    requires { (at < i) × (i ≤ length s.now) }
    ensures { result ≡ based (drop at s.now) (i - at) }
{
    let e = run_end(s, i, BASED);
    let closed = peek(s, e) == b'#';
    let f = e + usize::from(closed);
    let x = in_class(peek(s, f), EXPONENTS);
    let real = has_byte(&s[i..e], b'.') | x;
    Number {
        kind: if real { REAL_LIT } else { INTEGER_LIT },
        len: exponent(s, f) - at,
        base: Span {
            begin: 0,
            end: i - 1 - at,
        },
        inner: Span {
            begin: i - at,
            end: e - at,
        },
        closed,
        exponent: x,
    }
}

// The integer at a place, without a base, whose first digits end at `d`: more of them, and `_`, may follow.
fn scan_integer(s: &[u8], at: usize, d: usize) -> Number
    requires { (at ≤ d) }
    ensures { result ≡ integer (run_end is_grouped (drop at s.now) (d - at)) }
{
    let n = run_end(s, d, GROUPED) - at;
    unbased(INTEGER_LIT, n, n, false)
}

// The number at a place whose first digits end at `d`: what stands there tells the first case that fits.
#[inline(always)]
pub fn number_from(s: &[u8], at: usize, d: usize) -> Number
    requires { (at < d) × (d ≤ length s.now) }
    ensures { result ≡ number_from (drop at s.now) (d - at) }
{
    let w = window_at(s, d);
    let b = w.first;
    let c = w.second;
    if is_c_style(s[at], d - at, b, c) {
        return unbased(ERROR, run_end(s, at, WORD) - at, 0, false);
    }
    if b == b'#' {
        return scan_based(s, at, d + 1);
    }
    if (b == b'.') & !(c == b'.') {
        return scan_real(s, at, run_end(s, d + 1, DIGITS));
    }
    if in_class(b, EXPONENTS) {
        return scan_real(s, at, d);
    }
    scan_integer(s, at, d)
}

// The number at a place. Where neither a letter nor `#` stands behind its digits, as behind most, it is an integer, or with a dot a real, and is read
// without a call of `number_from`.
fn scan_number(s: &[u8], at: usize) -> Number
    requires { Begins s.now at (# INTEGER) }
    ensures { result ≡ number_of (drop at s.now) }
{
    let d = run_end(s, at + 1, DIGITS);
    let w = window_at(s, d);
    let b = w.first;
    if (b == b'.') & !(w.second == b'.') {
        return scan_real(s, at, run_end(s, d + 1, DIGITS));
    }
    if (b == b'_') | !(in_class(b, WORD) | (b == b'#')) {
        return scan_integer(s, at, d);
    }
    number_from(s, at, d)
}

// WORDS

// The place of the last byte that belongs to no word.
#[tactic(auto, unfolding(classes::specs::Classes::member))]
fn last_outside(s: &[u8]) -> Option<usize>
    ensures { MatchOption result (AllWord s.now) (LastOutside s.now) }
{
    s.iter().rposition(|b| !in_class(*b, WORD))
}

// The same, or 0 where every byte belongs to a word.
pub fn word_bound(s: &[u8]) -> usize
    ensures { result ≡ last_gap s.now (length s.now) }
{
    last_outside(s).unwrap_or(0)
}

// PUNCTUATION

// The longest mark that three bytes begin with; `one` is the mark that the first is.
#[tactic(auto, using(crate::proofs::LongerMarks::by_bytes))]
fn longer_mark(a: u8, b: u8, c: u8, one: Option<Token>) -> Option<Token>
    requires { one ≡ longest (a ∷ []) }
    ensures { result ≡ longest (a ∷ b ∷ c ∷ []) }
{
    match [a, b, c] {
        [b'=', b'>', _] => Some(token(FAT_ARROW, 2)),
        [b':', b':', _] => Some(token(COLON_COLON, 2)),
        [b'.', b'.', _] => Some(token(DOT_DOT, 2)),
        [b'-', b'>', _] => Some(token(ARROW, 2)),
        [b'-', b'[', _] => Some(token(DASH_BRACKET, 2)),
        [b'+', b'=', b'>'] => Some(token(PLUS_ARROW, 3)),
        [b'{', b'*', b'*'] => Some(token(ANNEX_OPEN, 3)),
        [b'*', b'*', b'}'] => Some(token(ANNEX_CLOSE, 3)),
        [b']', b'-', b'>'] => Some(token(BRACKET_ARROW, 3)),
        [b'<', b'-', b'>'] => Some(token(BIDI_ARROW, 3)),
        _ => one,
    }
}

// The mark of one byte by what the byte says, which is 0 for none.
fn one_mark(kind: u32) -> Option<Token>
    ensures { result ≡ single kind }
{
    if kind == 0 {
        None
    } else {
        Some(token(kind, 1))
    }
}

// A mark, or, where there is none, one character as an error; a byte that begins no character is one by itself.
fn mark_or_error(s: &[u8], at: usize, mark: Option<Token>) -> Token
    requires { (at ≤ length s.now) × (mark ≡ longest (drop at s.now)) }
    ensures { result ≡ mark_of (drop at s.now) }
{
    match mark {
        Some(found) => found,
        None => token(ERROR, sequence_at(s, at).max(1)),
    }
}

// A comment, a mark or an error, `k` being what the first byte says: a byte that stands second in no mark makes none longer.
fn scan_mark(s: &[u8], at: usize, k: u32) -> Token
    requires { Begins s.now at k × Other k }
    ensures { result ≡ token_of (drop at s.now) }
{
    let w = window_at(s, at);
    let one = one_mark(k % BEGINS_OTHERS);
    if !in_class(w.second, SECOND) {
        return mark_or_error(s, at, one);
    }
    if (w.first == b'-') & (w.second == b'-') {
        return scan_comment(s, at);
    }
    mark_or_error(s, at, longer_mark(w.first, w.second, w.third, one))
}

// THE TOKEN

// A text, and the place of its last byte that belongs to no word, or 0: a word that begins before it also ends before it, so that `word_end`
// needs no test for the text's end there.
#[derive(Clone, Copy)]
pub struct Scanner<'a> {
    pub text: &'a [u8],
    pub bound: usize,
    ghost bounds: { Bounds text.now bound },
}

impl<'a> Scanner<'a> {
    pub fn new(text: &'a [u8]) -> Scanner<'a>
        ensures { result.text.now ≡ text.now }
    {
        Scanner {
            text,
            bound: word_bound(text),
        }
    }

    // The place after the letters, digits and `_` that begin at a place. By hand: an iterator tests for the text's end at each byte, which is slower
    // (docs/SPEED.md, `word_end`).
    fn word_end(self, from: usize) -> usize
        requires { (1 ≤ from) × (from ≤ length self.text.now) }
        ensures { (result ≡ run_end is_ident_continue self.entry.text.now from) × (result ≤ length self.entry.text.now) × (from ≤ result) }
    {
        let s = self.text;
        if self.bound < from {
            return from + run(&s[from..], WORD);
        }
        let mut i = from;
        loop {
            if !in_class(s[i], WORD) {
                return i;
            }
            if !in_class(s[i + 1], WORD) {
                return i + 1;
            }
            if !in_class(s[i + 2], WORD) {
                return i + 2;
            }
            if !in_class(s[i + 3], WORD) {
                return i + 3;
            }
            i += 4;
        }
    }

    fn scan_ident_or_keyword(self, at: usize) -> Token
        requires { Begins self.text.now at (# NAME) }
        ensures { result ≡ token_of (drop at self.entry.text.now) }
    {
        let e = self.word_end(at + 1);
        token(from_keyword(&self.text[at..e]), e - at)
    }

    // The token at a place. Marks that no other mark begins with are told by their first byte.
    pub fn scan_token(self, at: usize) -> Token
        requires { at + 1 ≤ length self.text.now }
        ensures { result ≡ token_of (drop at self.entry.text.now) }
    {
        let s = self.text;
        let k = lead(s[at]);
        if k == IDENT {
            return self.scan_ident_or_keyword(at);
        }
        if k == WHITESPACE {
            return scan_whitespace(s, at);
        }
        if (WHITESPACE < k) & (k < INTEGER_LIT) {
            return token(k, 1);
        }
        if k == INTEGER_LIT {
            let n = scan_number(s, at);
            return token(n.kind, n.len);
        }
        if k == STRING_LIT {
            return scan_string(s, at);
        }
        scan_mark(s, at, k)
    }
}
