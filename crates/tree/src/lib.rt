// The tree call: what the section call does, and a record for each node of the tree that the events spell.

#![tactic(auto)]

ghost use Rattle.std.specs.Prelude.{◌≡◌, List, [], ◌∷◌, ℕ, suc, ◌+◌, ◌*◌, ◌≤◌, ◌<◌, length, drop, replicate};
ghost use Rattle.std.proofs.lemmas.List.Edits.{sets};
ghost use Rattle.aadl.specs.Limits.{base, Allowed, most_events};
ghost use Rattle.aadl.specs.Symbols.{start_of};
ghost use Rattle.aadl.specs.Encoding.{first_words, told_by};
ghost use Rattle.aadl.specs.Answers.{token_words};
ghost use Rattle.aadl.specs.Records.{of_node, words_of_records, with_records};
ghost use Rattle.aadl.specs.Promises.{MakesTreeCall};
ghost use Rattle.tree.specs.Walk.{links, opened, Walk, begun, closed, turn};
ghost use Rattle.tree.specs.Builders.{CanOpen, chain_opened, Holds, HoldsSome, CanTurn, StepsBy, Built};

use aadl::{Answer, Limits, Refusal, TreeAnswer};
use codec::{EVENT_WORDS, class_in, events_told, first_word, kind_in, last_in};
use lexer::{BASE, clear, refuse};
use parser::Tokens;
use section::property_section_within;

// A tree that is being built: how many records its nodes so far have, the innermost open node's record, the tokens taken. Records are numbers in words
// that C lends, with no heap.
#[derive(Clone, Copy)]
pub struct Builder {
    pub records: usize,
    pub innermost: usize,
    pub taken: usize,
}

// CHAINS

// How many Starts the chain has that begins with an event. The loop goes along the chain's links, over no list in order.
fn chain_length(events: &[u32], i: usize) -> usize
    ensures { result ≡ length (links 0 (told_by events.now) i) }
{
    let told = events_told(events);
    let mut n: usize = 0;
    let mut at = i;
    while at < told {
        let w = first_word(events, at);
        if class_in(w) != 0 {
            return n;
        }
        n += 1;
        let up = last_in(w) as usize;
        if up == 0 {
            return n;
        }
        at += up;
    }
    n
}

// Writes a record's four words.
fn put_record(
    records: &mut [u32],
    number: usize,
    kind: u32,
    parent: usize,
    first: usize,
    below: usize,
)
    requires { (number * 4 + 3 < length records.old) × (parent < 4294967296) × (first < 4294967296) × (below < 4294967296) }
    ensures { records.new ≡ sets records.old (number * 4) (words_of_records (of_node kind parent first below ∷ [])) }
{
    let at = number * 4;
    records[at..at + 4].copy_from_slice(&[kind, parent as u32, first as u32, below as u32]);
}

// EVENTS

impl Builder {
    // Opens the nodes of a chain of n Starts that begins with event i: from the chain's end, the innermost node first.
    fn open_chain(self, events: &[u32], records: &mut [u32], i: usize, n: usize)
        requires { CanOpen events.now records.old i n self }
        ensures { records.new ≡ chain_opened events.now i self records.old }
    {
        let mut at = i;
        for number in (self.records..self.records + n).rev() {
            let w = first_word(events, at);
            let parent = if number == self.records {
                self.innermost
            } else {
                number - 1
            };
            put_record(records, number, kind_in(w), parent, self.taken, at);
            at += last_in(w) as usize;
        }
    }

    // A Start: it was used by an earlier one if it is the innermost open node's own; else it opens its chain.
    fn start(&mut self, events: &[u32], records: &mut [u32], i: usize) -> Result<(), usize>
        requires { CanTurn events.now records.old i self.old }
        ensures { StepsBy begun events records i self.old result self.new }
    {
        if records[self.innermost * 4 + 3] == i as u32 {
            return Ok(());
        }
        let n = chain_length(events, i);
        let count = self.records + n;
        if records.len() / 4 < count {
            return Err(self.taken);
        }
        self.open_chain(events, records, i, n);
        self.records = count;
        self.innermost = count - 1;
        Ok(())
    }

    // A Finish: the innermost open node's record counts the tokens since its first.
    fn finish(&mut self, records: &mut [u32], i: usize)
        requires { (i < most_events) × HoldsSome i self.old records.old }
        ensures { (old : List ℕ) (w : Walk) → Holds old i w self.old records.old → Holds old (suc i) (closed w) self.new records.new }
    {
        let at = self.innermost * 4;
        let first = records[at + 2] as usize;
        self.innermost = records[at + 1] as usize;
        records[at + 3] = (self.taken - first) as u32;
    }

    // What an event does to the tree; or the number of the first token below a node that has no record.
    fn turn(&mut self, events: &[u32], records: &mut [u32], i: usize) -> Result<(), usize>
        requires { CanTurn events.now records.old i self.old }
        ensures { StepsBy turn events records i self.old result self.new }
    {
        match class_in(first_word(events, i)) {
            0 => return self.start(events, records, i),
            1 => self.taken += 1,
            2 => self.finish(records, i),
            _ => (),
        }
        Ok(())
    }
}

// The records of the tree that events spell, into lent words: in one pass over the events, with no memory but these words. While a node
// is open its fourth word holds the number of its Start's event. The root, whose Start is the first event, is open from the beginning.
// How many records there are; or, where a node has none, the number of the first token below it.
fn build(events: &[u32], records: &mut [u32]) -> Result<usize, usize>
    requires { (1 ≤ length (first_words events.now)) × (length (first_words events.now) ≤ most_events) }
    ensures { Built (first_words events.now) records.old result records.new }
{
    if records.len() < 4 {
        return Err(0);
    }
    put_record(records, 0, kind_in(first_word(events, 0)), 0, 0, 0);
    let mut b = Builder {
        records: 1,
        innermost: 0,
        taken: 0,
    };
    for i in 0..events_told(events) {
        b.turn(events, records, i)?;
    }
    Ok(b.records)
}

// THE CALL

// Where the non-trivia token with a number starts, or the text's length.
fn token_place(text: &[u8], words: &[u32], number: usize) -> usize
    requires { (length text.now < 65536) × (words.now ≡ token_words text.now) }
    ensures { result ≡ start_of text.now number }
{
    let mut tokens = Tokens::new(text, words);
    for _ in 0..number {
        tokens.pass();
    }
    tokens.byte
}

// A refusal of the tree call counts no record and zeroes their words.
fn without_records(records: &mut [u32], a: Answer) -> TreeAnswer
    ensures { (result ≡ with_records a 0) × (records.new ≡ replicate (length records.old) 0) }
{
    clear(records);
    TreeAnswer {
        answer: a,
        records: 0,
    }
}

// The tree call within limits: what the section call does, and the records of the tree into lent words; or one of the refusals 1 to 8
// with all words zeroed.
pub fn property_tree_within(
    src: &[u8],
    tokens: &mut [u32],
    events: &mut [u32],
    records: &mut [u32],
    limits: Limits,
) -> TreeAnswer
    requires { Allowed limits }
    ensures { MakesTreeCall limits src tokens events records result }
{
    let a = property_section_within(src, tokens, events, limits);
    if a.number != 0 {
        return without_records(records, a);
    }
    match build(&events[..a.events * EVENT_WORDS], records) {
        Ok(count) => TreeAnswer {
            answer: a,
            records: count,
        },
        Err(token) => {
            let place = token_place(src, &tokens[..a.tokens], token);
            clear(events);
            without_records(records, refuse(tokens, Refusal::NoRecord as u32, place))
        }
    }
}

// The tree call: what the section call does, and the records of the tree into lent words; or one of the refusals 1 to 8 with all words
// zeroed.
pub fn property_tree(
    src: &[u8],
    tokens: &mut [u32],
    events: &mut [u32],
    records: &mut [u32],
) -> TreeAnswer
    ensures { MakesTreeCall base src tokens events records result }
{
    property_tree_within(src, tokens, events, records, BASE)
}
