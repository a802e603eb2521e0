// The tokens-only call: UTF-8, tokens, refusals 1 to 3 and 8; and by its number the text of a token, and the parts of one that is a number.

#![tactic(auto)]

ghost use Rattle.std.specs.Prelude.{◌≡◌, ◌+◌, ◌-◌, ◌≤◌, ◌<◌, min, [], length, take, drop, replicate, unwrap_or};
ghost use Rattle.aadl.specs.Limits.{base, Allowed};
ghost use Rattle.aadl.specs.Utf8.{ill_formed};
ghost use Rattle.aadl.specs.Tokens.{total, from_token, token_text};
ghost use Rattle.aadl.specs.NumberParts.{no_number, number_parts, part_numbers, PartsHold};
ghost use Rattle.aadl.specs.Answers.{refused, token_words};
ghost use Rattle.aadl.specs.Promises.{MakesTokensCall};
ghost use Rattle.lexer.specs.Filling.{write, filled_of};

use aadl::{Answer, Limits, Number, Refusal, Token};
use classes::{DIGITS, is_ascii, peek, run_end, sequence_at, skip_ascii};
use codec::{kind_in, length_in, token_word};
use scan::{Scanner, number_from};

// The tokens of a text in words: how many, and the last one, if there is any. Only the last token of a text can be a string that is not closed.
#[derive(Clone, Copy)]
pub struct Filled {
    pub count: usize,
    pub last: Option<Token>,
}

// Where the first ill-formed sequence starts, or the length. The loop goes by sequences, of 1 to 4 bytes, for which no iterator stands.
fn valid_up_to(s: &[u8]) -> usize
    ensures { result ≡ ill_formed s.now }
{
    if is_ascii(s) {
        return s.len();
    }
    let mut at = skip_ascii(s, 0);
    while at < s.len() {
        let n = sequence_at(s, at);
        if n == 0 {
            return at;
        }
        at = skip_ascii(s, at + n);
    }
    at
}

// Fills the words with the tokens of a text, as far as they go; where a token is left without a word, its place. No `for` over the words: the text's
// end ends it, so that a `for` has the same tests and is no plainer.
fn fill(s: &[u8], tokens: &mut [u32]) -> Result<Filled, usize>
    requires { length s.now ≤ base.bytes }
    ensures { (result ≡ filled_of s.now (length tokens.old)) × (tokens.new ≡ write (token_words s.now) tokens.old) }
{
    let scanner = Scanner::new(s);
    let mut at = 0;
    let mut count = 0;
    let mut last = None;
    while at < s.len() {
        if count == tokens.len() {
            return Err(at);
        }
        let token = scanner.scan_token(at);
        tokens[count] = token_word(token.kind, token.len);
        count += 1;
        at += token.len;
        last = Some(token);
    }
    Ok(Filled { count, last })
}

// Zeroes every word.
pub fn clear(words: &mut [u32])
    ensures { words.new ≡ replicate (length words.old) 0 }
{
    words.fill(0);
}

// A sum, at most a cap.
fn add_capped(a: usize, b: usize, cap: usize) -> usize
    requires { a ≤ cap }
    ensures { result ≡ min (a + b) cap }
{
    if b < cap - a {
        return a + b;
    }
    cap
}

// The sum of the lengths in the first words, at most a cap.
pub fn token_start(words: &[u32], number: usize, cap: usize) -> usize
    ensures { result ≡ min (total (take number words.now)) cap }
{
    let mut at = 0;
    for w in &words[..number.min(words.len())] {
        at = add_capped(at, length_in(*w), cap);
    }
    at
}

// The part from a place to another, or the empty part where the second is past the end.
fn part(src: &[u8], from: usize, end: usize) -> &[u8]
    requires { from ≤ end }
    ensures inside { end ≤ length src.now → result.now ≡ take (end - from) (drop from src.now) }
    ensures past { length src.now < end → result.now ≡ [] }
{
    src.get(from..end).unwrap_or(&[])
}

// The text of a token, by its number: a part of the lent text, or the empty part. The words may be any.
pub fn token_text<'a>(src: &'a [u8], words: &[u32], number: usize) -> &'a [u8]
    ensures { result.now ≡ token_text src.now words.now number }
{
    let Some(word) = words.get(number) else {
        return &[];
    };
    let from = token_start(words, number, src.len() + 1);
    let end = from.saturating_add(length_in(*word));
    part(src, from, end)
}

// The number that a token is, by its number, if there is such a token and a number of its kind and length stands there.
fn number_there(src: &[u8], words: &[u32], number: usize) -> Option<Number>
    ensures { unwrap_or result no_number ≡ number_parts src.now words.now number }
{
    let word = *words.get(number)?;
    let at = token_start(words, number, src.len());
    let first = peek(src, at);
    if !((b'0' <= first) & (first <= b'9')) {
        return None;
    }
    let d = run_end(src, at, DIGITS);
    let n = number_from(src, at, d);
    if (n.kind == kind_in(word)) & (n.len == length_in(word)) {
        return Some(n);
    }
    None
}

// The parts of the number that a token is, by its number: all zero where there is no such token or no number of its kind and length stands there. The words
// may be any.
pub fn number_parts(src: &[u8], words: &[u32], number: usize) -> Number
    ensures parts { result ≡ number_parts src.now words.now number }
    ensures parts_hold { PartsHold (from_token src.now words.now number) result }
{
    number_there(src, words, number).unwrap_or_default()
}

// A number as eight numbers in a row, as it is told outside.
pub fn part_numbers(n: Number) -> [usize; 8]
    ensures { result ≡ part_numbers n }
{
    [
        n.kind as usize,
        n.len,
        n.base.begin,
        n.base.end,
        n.inner.begin,
        n.inner.end,
        usize::from(n.closed),
        usize::from(n.exponent),
    ]
}

// 01's limits.
pub const BASE: Limits = Limits {
    bytes: 32768,
    openers: 64,
};

// A refusal zeroes every lent word. A call with more words clears the others. The number is any, as in an answer, of which `is_clean` takes each.
pub fn refuse(tokens: &mut [u32], number: u32, place: usize) -> Answer
    ensures { (result ≡ refused number place) × (tokens.new ≡ replicate (length tokens.old) 0) }
{
    clear(tokens);
    Answer {
        number,
        place,
        ..Answer::default()
    }
}

// The tokens-only call within limits: the tokens of a text into lent words, or one of the refusals 1 to 3 and 8 with all words zeroed.
pub fn tokenize_within(src: &[u8], tokens: &mut [u32], limits: Limits) -> Answer
    requires { Allowed limits }
    ensures { MakesTokensCall limits src tokens result }
{
    if limits.bytes < src.len() {
        return refuse(tokens, Refusal::TooLong as u32, limits.bytes);
    }
    let v = valid_up_to(src);
    if v != src.len() {
        return refuse(tokens, Refusal::IllFormed as u32, v);
    }
    let filled = match fill(src, tokens) {
        Ok(filled) => filled,
        Err(at) => return refuse(tokens, Refusal::NoTokenWord as u32, at),
    };
    if let Some(last) = filled.last {
        if !last.closed {
            return refuse(tokens, Refusal::NotClosed as u32, src.len() - last.len);
        }
    }
    Answer {
        tokens: filled.count,
        ..Answer::default()
    }
}

// The tokens-only call: the tokens of a text into lent words, or one of the refusals 1 to 3 and 8 with all words zeroed.
pub fn tokenize(src: &[u8], tokens: &mut [u32]) -> Answer
    ensures { MakesTokensCall base src tokens result }
{
    tokenize_within(src, tokens, BASE)
}
