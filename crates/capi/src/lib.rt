// The calls as C and Rust link them: on numbers and slices alone, each proved to be the library's call. bindings/ says how they are
// called from outside. Every length is allowed, and no call asks anything of what is lent.

#![tactic(auto)]

ghost use Rattle.std.specs.Prelude.{◌≡◌, cond};
ghost use Rattle.aadl.specs.Limits.{base};
ghost use Rattle.aadl.specs.Tokens.{from_token};
ghost use Rattle.aadl.specs.NumberParts.{number_parts, PartsHold};
ghost use Rattle.aadl.specs.Promises.{MakesTokensCall, MakesSectionCall, MakesTreeCall, MakesValueCall};
ghost use Rattle.lexer.specs.Filling.{write};
ghost use Rattle.capi.specs.Numbers.{numbers, six_in_a_row, Exported, clean_words, part_told, IsThePart, parts_told};

use aadl::Answer;
use codec::events_told;

// Writes numbers over lent ones, as many as are lent.
fn tell(lent: &mut [usize], numbers: &[usize])
    ensures { lent.new ≡ write numbers.now lent.old }
{
    for (i, n) in numbers.iter().enumerate() {
        if i < lent.len() {
            lent[i] = *n;
        }
    }
}

// An answer's five numbers.
fn tell_answer(lent: &mut [usize], a: Answer)
    ensures { lent.new ≡ write (numbers a) lent.old }
{
    let five = [a.number as usize, a.place, a.tokens, a.taken, a.events];
    tell(lent, &five);
}

// The section call: tokens, a word each, and events, two words each, into lent words, the answer's numbers into lent numbers.
#[unsafe(no_mangle)]
pub extern "C" fn gigboda_property_section(
    src: &[u8],
    tokens: &mut [u32],
    events: &mut [u32],
    answer: &mut [usize],
)
    ensures { Exported numbers (MakesSectionCall base src tokens events) answer }
{
    let a = section::property_section(src, tokens, events);
    tell_answer(answer, a);
}

// The tree call: tokens, events and the tree's records into lent words, the answer's numbers into lent numbers.
#[unsafe(no_mangle)]
pub extern "C" fn gigboda_property_tree(
    src: &[u8],
    tokens: &mut [u32],
    events: &mut [u32],
    records: &mut [u32],
    answer: &mut [usize],
)
    ensures { Exported six_in_a_row (MakesTreeCall base src tokens events records) answer }
{
    let a = tree::property_tree(src, tokens, events, records);
    let five = a.answer;
    let six = [
        five.number as usize,
        five.place,
        five.tokens,
        five.taken,
        five.events,
        a.records,
    ];
    tell(answer, &six);
}

// The value call: tokens and events into lent words, the answer's numbers into lent numbers; the value is returned.
#[unsafe(no_mangle)]
pub extern "C" fn gigboda_association_value(
    src: &[u8],
    tokens: &mut [u32],
    events: &mut [u32],
    number: usize,
    answer: &mut [usize],
) -> i64
    ensures { Exported (λ a. numbers a.answer) (λ a. (result ≡ a.value) × MakesValueCall base src tokens events number a) answer }
{
    let a = value::association_value(src, tokens, events, number);
    let value = a.value;
    tell_answer(answer, a.answer);
    value
}

// The tokens-only call: tokens into lent words, the answer's numbers into lent numbers.
#[unsafe(no_mangle)]
pub extern "C" fn gigboda_tokenize(src: &[u8], tokens: &mut [u32], answer: &mut [usize])
    ensures { Exported numbers (MakesTokensCall base src tokens) answer }
{
    let a = lexer::tokenize(src, tokens);
    tell_answer(answer, a);
}

// Whether a section that was read is clean, 1 or 0: by the tokens taken and the words that an answer counts which refuses nothing.
#[unsafe(no_mangle)]
pub extern "C" fn gigboda_clean(taken: usize, tokens: &[u32], events: &[u32]) -> u32
    ensures { result ≡ cond (clean_words taken tokens.now events.now) 1 0 }
{
    let counted = Answer {
        number: 0,
        place: 0,
        tokens: tokens.len(),
        taken,
        events: events_told(events),
    };
    u32::from(section::is_clean(counted, tokens, events))
}

// The text of a token, by its number: where it starts in the lent text and how long it is, into lent numbers. An exported function
// cannot return a part of the text itself.
#[unsafe(no_mangle)]
pub extern "C" fn gigboda_token_text(src: &[u8], words: &[u32], number: usize, part: &mut [usize])
    ensures part_numbers { part.new ≡ part_told src.now words.now number part.old }
    ensures part_text { IsThePart src.now words.now number }
{
    let text = lexer::token_text(src, words, number);
    let len = text.len();
    let from = lexer::token_start(words, number, src.len());
    let two = [from, len];
    tell(part, &two);
}

// The parts of the number that a token is, by its number: eight numbers into lent numbers.
#[unsafe(no_mangle)]
pub extern "C" fn gigboda_number_parts(
    src: &[u8],
    words: &[u32],
    number: usize,
    parts: &mut [usize],
)
    ensures parts_numbers { parts.new ≡ parts_told src.now words.now number parts.old }
    ensures parts_hold { PartsHold (from_token src.now words.now number) (number_parts src.now words.now number) }
{
    let eight = lexer::part_numbers(lexer::number_parts(src, words, number));
    tell(parts, &eight);
}
