// What document 01 says, as definitions: specs/ holds them, proofs/ holds what follows from them. The structs here are what the
// definitions give and the functions of later crates return.

#![tactic(auto)]

// A token at the front of some bytes: its kind, its length in bytes, and whether it is closed, which all but some strings are.
#[derive(Clone, Copy)]
pub struct Token {
    pub kind: u32,
    pub len: usize,
    pub closed: bool,
}

// What of some bytes belongs to a string that begins with them or has begun before them: how many bytes, up to the quote that closes it and with
// that quote, or all of them where none closes it; and whether it was closed.
#[derive(Clone, Copy)]
pub struct Quoted {
    pub len: usize,
    pub closed: bool,
}

// A part of something, by places: where it begins, and the first place after it.
#[derive(Clone, Copy, Default)]
pub struct Span {
    pub begin: usize,
    pub end: usize,
}

// A number at the front of some bytes: its kind, its length in bytes, where the base's digits and the inner digits stand, whether a closing `#` was
// there, and whether an exponent was. Places count from the number's start.
#[derive(Clone, Copy, Default)]
pub struct Number {
    pub kind: u32,
    pub len: usize,
    pub base: Span,
    pub inner: Span,
    pub closed: bool,
    pub exponent: bool,
}

// Why a call refuses a text, with the number that its answer has.
#[derive(Clone, Copy, PartialEq, Eq)]
pub enum Refusal {
    // more bytes than the limit
    TooLong = 1,
    // a sequence that is no UTF-8
    IllFormed = 2,
    // a token without a word to stand in
    NoTokenWord = 3,
    // no `properties` in front
    NoSection = 4,
    // an event without words to stand in
    NoEventWord = 5,
    // an opener too many
    TooDeep = 6,
    // a node without a record to stand in
    NoRecord = 7,
    // a string that nothing closes
    NotClosed = 8,
    // no such association in a clean section, or one whose first value is no constant
    NoConstant = 9,
    // a value beyond the range
    BeyondRange = 10,
}

// The limits of a call: most bytes of a text, and most openers that stand open at once.
#[derive(Clone, Copy)]
pub struct Limits {
    pub bytes: usize,
    pub openers: usize,
}

// What a call answers: the refusal's number and place (0 and 0 for none), the tokens, the non-trivia tokens taken, the events. No Result: C lends five
// numbers for it, and `is_clean`, `refused` and the calls' promises speak of an answer with any of them.
#[derive(Clone, Copy, Default)]
pub struct Answer {
    pub number: u32,
    pub place: usize,
    pub tokens: usize,
    pub taken: usize,
    pub events: usize,
}

// What the tree call answers: what the section call does, and the number of records.
#[derive(Clone, Copy)]
pub struct TreeAnswer {
    pub answer: Answer,
    pub records: usize,
}

// What the value call answers: what the section call does, and the value.
#[derive(Clone, Copy)]
pub struct ValueAnswer {
    pub answer: Answer,
    pub value: i64,
}
