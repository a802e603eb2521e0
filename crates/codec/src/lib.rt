// Token and event words: how a kind, a length, a class and a last number make a word, and how they come back from it. Every other crate
// asks here.

#![tactic(auto)]

ghost use Rattle.std.specs.Prelude.{◌≡◌, length, get_or, ◌+◌, ◌*◌, ◌/◌, ◌<◌};
ghost use Rattle.predictive.specs.Forest.{message};
ghost use Rattle.predictive.specs.Events as E;
ghost use Rattle.aadl.specs.Tokens as T;
ghost use Rattle.aadl.specs.Tokens.{kind_in, length_in};
ghost use Rattle.aadl.specs.Encoding.{event_word, class_in, last_in, cut_to_word, first_words};

// Numbers that fit are cast by `as`: `usize` has no `From<u32>`, and `try_from` has an `Err` that cannot come.

// BOTH

// The kind in a word: a token's, or that of a Start or Token event.
pub fn kind_in(w: u32) -> u32
    ensures { result ≡ kind_in w }
{
    w / 65536 % 256
}

// The number behind the kind: a token's length, a Start's forward parent, an Error's message.
pub fn last_in(w: u32) -> u32
    ensures { result ≡ last_in w }
{
    w % 65536
}

// TOKENS

pub fn token_word(kind: u32, len: usize) -> u32
    requires { (kind < 256) × (len < 65536) }
    ensures { result ≡ T.token_word (T.token kind len) }
{
    kind * 65536 + len as u32
}

pub fn length_in(w: u32) -> usize
    ensures { result ≡ length_in w }
{
    last_in(w) as usize
}

// EVENTS

// The words of an event, and how many numbers a word counts.
pub const EVENT_WORDS: usize = 2;

const NUMBERS: usize = 4294967296;

// Class × 16,777,216 + kind × 65,536 + last. Class 0 is a Start, 1 a Token, whose last is 1, 2 Finish, 3 an Error.
const CLASS: u32 = 16777216;

// How many events words tell, two words each.
pub fn events_told(events: &[u32]) -> usize
    ensures { result ≡ length (first_words events.now) }
{
    events.len() / EVENT_WORDS
}

// The first word of the event with a number, from 0.
pub fn first_word(events: &[u32], number: usize) -> u32
    requires { number < length (first_words events.now) }
    ensures { result ≡ get_or (first_words events.now) number 0 }
{
    events[number * EVENT_WORDS]
}

// The second word of an event: the number of the next untaken token.
pub fn second_word(token: usize) -> u32
    ensures { result ≡ cut_to_word token }
{
    (token % NUMBERS) as u32
}

pub fn class_in(w: u32) -> u32
    ensures { result ≡ class_in w }
{
    w / CLASS
}

pub fn start_word(kind: u32) -> u32
    requires { kind < 256 }
    ensures { result ≡ event_word (E.start kind 0) }
{
    kind * 65536
}

// The word of a Start with a forward parent so far on.
pub fn with_parent(w: u32, distance: usize) -> u32
    requires { distance < 65536 }
    ensures { result ≡ w / 65536 * 65536 + distance }
{
    w / 65536 * 65536 + distance as u32
}

pub fn token_event(kind: u32) -> u32
    requires { kind < 512 }
    ensures { result ≡ event_word (E.token kind) }
{
    CLASS + kind * 65536 + 1
}

pub fn finish_event() -> u32
    ensures { result ≡ event_word E.finish }
{
    2 * CLASS
}

pub fn error_event(m: u32) -> u32
    requires { m < 65536 }
    ensures { result ≡ event_word (E.error (message m)) }
{
    3 * CLASS + m
}
