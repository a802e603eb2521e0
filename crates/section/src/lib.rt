// The section call: tokens, section and the seven refusals in one answer.

#![tactic(auto)]

ghost use Rattle.std.specs.Prelude.{◌≡◌, cond, not, take, count_by};
ghost use Rattle.predictive.specs.Events.{erring, any_fault};
ghost use Rattle.aadl.specs.Limits.{base, Allowed};
ghost use Rattle.aadl.specs.Symbols as Sym;
ghost use Rattle.aadl.specs.Tokens as T;
ghost use Rattle.aadl.specs.Encoding.{events_in};
ghost use Rattle.aadl.specs.Demand.{solid_words, is_clean};
ghost use Rattle.aadl.specs.Promises.{MakesSectionCall};
ghost use Rattle.section.specs.Replies.{ReadsSection};

use aadl::{Answer, Limits, Refusal};
use codec::{class_in, events_told, first_word, kind_in};
use lexer::{BASE, clear, refuse, tokenize_within};
use parser::Parser;
use syntax_kind::{PROPERTIES_KW, is_trivia};

// The section, where `properties` stands. The Rust panics where it does not, here the parser stops with 4.
fn read(p: &mut Parser<'_>)
    ensures { ReadsSection p.old p.new }
{
    if p.at(PROPERTIES_KW) {
        properties::property_section(p);
    } else {
        p.stop(Refusal::NoSection as usize);
    }
}

// The section call within limits: the tokens of a text and the events of its section into lent words, or one of the refusals 1 to 6
// and 8 with all words zeroed.
pub fn property_section_within(
    src: &[u8],
    tokens: &mut [u32],
    events: &mut [u32],
    limits: Limits,
) -> Answer
    requires { Allowed limits }
    ensures { MakesSectionCall limits src tokens events result }
{
    let a = tokenize_within(src, tokens, limits);
    if a.number != 0 {
        return refuse(events, a.number, a.place);
    }
    let count = a.tokens;
    let mut p = Parser::new(src, &tokens[..count], events, limits.openers);
    read(&mut p);
    let c = p.counters();
    if c.stop != 0 {
        clear(events);
        return refuse(tokens, c.stop as u32, c.byte);
    }
    Answer {
        number: 0,
        place: 0,
        tokens: count,
        taken: c.taken,
        events: c.used,
    }
}

// The section call: the tokens of a text and the events of its section into lent words, or one of the refusals 1 to 6 and 8 with all
// words zeroed.
pub fn property_section(src: &[u8], tokens: &mut [u32], events: &mut [u32]) -> Answer
    ensures { MakesSectionCall base src tokens events result }
{
    property_section_within(src, tokens, events, BASE)
}

// Whether an Error is among the events of the first words: no exit, so that many words are gone over at once.
fn any_error(events: &[u32], count: usize) -> bool
    ensures { result ≡ erring any_fault (events_in count events.now) }
{
    let told = events_told(events).min(count);
    let mut found = false;
    for i in 0..told {
        found |= 3 <= class_in(first_word(events, i));
    }
    found
}

// How many words are no trivia's.
fn solid_in(words: &[u32]) -> usize
    ensures { result ≡ count_by (λ w. not (Sym.is_trivia (T.kind_in w))) words.now }
{
    let one_solid = |w: &u32| -> usize
        ensures { result ≡ cond (not (Sym.is_trivia (T.kind_in w.now))) 1 0 }
    { usize::from(!is_trivia(kind_in(*w))) };
    words.iter().map(one_solid).sum()
}

// .. of the first words.
fn solid_words(tokens: &[u32], count: usize) -> usize
    ensures { result ≡ solid_words (take count tokens.now) }
{
    solid_in(&tokens[..count.min(tokens.len())])
}

// Whether an answer of the section call, with the words that it left, is clean: not refused, no Error event, every non-trivia token taken.
pub fn is_clean(a: Answer, tokens: &[u32], events: &[u32]) -> bool
    ensures { result ≡ is_clean a tokens.now events.now }
{
    let erring = any_error(events, a.events);
    let solid = solid_words(tokens, a.tokens);
    (a.number == 0) & (!erring & (a.taken == solid))
}
