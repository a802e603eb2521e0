// The value call: what the section call does, and the value of an association. Its Start is found by where words lie among all words,
// second words of events too, which are below all that is looked for; the second word of the Start is the association's first token.
// Only the association's own tokens are gone over one by one.

#![tactic(auto)]

ghost use Rattle.std.specs.Prelude.{◌≡◌, ℕ, ◌≤◌, ◌<◌, length};
ghost use Rattle.aadl.specs.Limits.{base, Allowed};
ghost use Rattle.aadl.specs.Symbols.{raw_number};
ghost use Rattle.aadl.specs.Answers.{token_words};
ghost use Rattle.aadl.specs.Promises.{MakesValueCall};
ghost use Rattle.section.specs.Reaching.{Reached};
ghost use Rattle.value.specs.Words as W;
ghost use Rattle.value.specs.Verdicts.{number_of, place_of, WasRead, Judged};

use aadl::{Limits, Refusal, ValueAnswer};
use bands::{find, sum_of_lengths};
use codec::{EVENT_WORDS, start_word};
use evaluator::first_value;
use int64::to_i64;
use lexer::{BASE, clear, refuse};
use parser::Tokens;
use section::{is_clean, property_section_within};
use std::ops::Range;
use syntax_kind::PROPERTY_ASSOCIATION;

// Why an association has no value, and the place that is told: it is no constant, or beyond the range.
#[derive(Clone, Copy)]
enum NoValue {
    NoConstant(usize),
    Beyond(usize),
}

impl NoValue {
    // The number and the place of the refusal.
    fn refusal(self) -> (u32, usize)
        ensures { (result.0 ≡ number_of self) × (result.1 ≡ place_of self) }
    {
        match self {
            NoValue::NoConstant(place) => (Refusal::NoConstant as u32, place),
            NoValue::Beyond(place) => (Refusal::BeyondRange as u32, place),
        }
    }
}

// First words of events: Starts of an association.
fn starting() -> Range<u32>
    ensures { result ≡ W.starting }
{
    start_word(PROPERTY_ASSOCIATION)..start_word(PROPERTY_ASSOCIATION + 1)
}

// The tokens of a text from the one with a raw number on; none where that is the token count.
fn seek<'a>(text: &'a [u8], words: &'a [u32], at: usize) -> Tokens<'a>
    requires { (length text.now < 65536) × (words.now ≡ token_words text.now) × (at ≤ length words.now) }
    ensures { (n : ℕ) → at ≡ raw_number text.now n → Reached text.now n result }
{
    let byte = sum_of_lengths(&words[..at]);
    Tokens {
        text,
        words,
        at,
        byte,
    }
}

// The value of the association with a number, where a text was read, cleanly or not. It is no constant at the text's length where the text is
// not clean or has no such association, and else at the association's start.
fn judge(
    text: &[u8],
    words: &[u32],
    events: &[u32],
    clean: bool,
    number: usize,
) -> Result<i64, NoValue>
    requires { (limits : Limits) × WasRead limits text.now words.now events.now clean }
    ensures { (limits : Limits) → WasRead limits text.now words.now events.now clean → Judged limits text.now number result }
{
    let absent = NoValue::NoConstant(text.len());
    if !clean {
        return Err(absent);
    }
    let Some(at) = find(events, starting(), number) else {
        return Err(absent);
    };
    let first = events[at + 1] as usize;
    let tokens = seek(text, words, first);
    let Some(value) = first_value(tokens) else {
        return Err(NoValue::NoConstant(tokens.byte));
    };
    match value {
        Ok(whole) => Ok(to_i64(whole)),
        Err(place) => Err(NoValue::Beyond(place)),
    }
}

// THE CALL

// The value call within limits: what the section call does, and the value of the association with a number, from 0; or one of the refusals
// 1 to 6 and 8 to 10 with all words zeroed and the value 0.
pub fn association_value_within(
    src: &[u8],
    tokens: &mut [u32],
    events: &mut [u32],
    number: usize,
    limits: Limits,
) -> ValueAnswer
    requires { Allowed limits }
    ensures { MakesValueCall limits src tokens events number result }
{
    let a = property_section_within(src, tokens, events, limits);
    if a.number != 0 {
        return ValueAnswer {
            answer: a,
            value: 0,
        };
    }
    let clean = is_clean(a, tokens, events);
    match judge(
        src,
        &tokens[..a.tokens],
        &events[..a.events * EVENT_WORDS],
        clean,
        number,
    ) {
        Ok(value) => ValueAnswer { answer: a, value },
        Err(why) => {
            let (refused, place) = why.refusal();
            clear(events);
            ValueAnswer {
                answer: refuse(tokens, refused, place),
                value: 0,
            }
        }
    }
}

// The value call: what the section call does, and the value of the association with a number, from 0; or one of the refusals 1 to 6 and 8
// to 10 with all words zeroed and the value 0.
pub fn association_value(
    src: &[u8],
    tokens: &mut [u32],
    events: &mut [u32],
    number: usize,
) -> ValueAnswer
    ensures { MakesValueCall base src tokens events number result }
{
    association_value_within(src, tokens, events, number, BASE)
}
