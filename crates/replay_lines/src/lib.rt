// What `replay` writes for a record: the lines of a call's answer and of the words that it leaves, into lent bytes. tools/README.md says what the lines are.
// What has no room is left out (`writing`): a caller sees to room.

#![tactic(auto)]

ghost use Rattle.std.specs.Prelude.{ℕ, ◌≡◌, [], ◌∷◌, length, map, take, replicate};
ghost use Rattle.aadl.specs.Words.{bytes};
ghost use Rattle.aadl.specs.Listing.{decimal};
ghost use Rattle.aadl.specs.NumberParts.{part_numbers};
ghost use Rattle.writing.specs.Written.{Writes};
ghost use Rattle.replay_lines.specs.Records.{old_word, spaced, line, count, rest, named_answer, word_lines, more_lines, record_lines, tree_lines, value_lines};

use aadl::{Answer, Number, TreeAnswer, ValueAnswer};
use codec::EVENT_WORDS;
use lexer::part_numbers;
use writing::Writer;

// What every lent word holds before a call.
const OLD: u32 = 2779096485;

// Words and numbers are put alike.
trait Whole: Copy {
    ghost value: { Self → ℕ };

    fn long(self) -> u64
        ensures { result ≡ value self };
}

impl Whole for u32 {
    ghost value = { λ n. n };

    fn long(self) -> u64 {
        u64::from(self)
    }
}

impl Whole for usize {
    ghost value = { λ n. n };

    fn long(self) -> u64 {
        self as u64
    }
}

// Fills lent words with what they hold before a call.
pub fn fill(words: &mut [u32])
    ensures { words.new ≡ replicate (length words.old) old_word }
{
    words.fill(OLD);
}

// How many words hold a value.
fn count_of(words: &[u32], value: u32) -> usize
    ensures { result ≡ count value words.now }
{
    words.iter().filter(|w| **w == value).count()
}

// After a call that is not refused: how many words past the used ones keep what they held. After a refusal: how many are 0.
fn rest_of(words: &[u32], number: u32, used: usize) -> usize
    ensures { result ≡ rest number used words.now }
{
    if number != 0 {
        return count_of(words, 0);
    }
    let from = used.min(words.len());
    count_of(&words[from..], OLD)
}

// A space and a number.
fn put_number(w: &mut Writer, n: u64)
    ensures { Writes w.old (32 ∷ decimal n) w.new }
{
    w.put_byte(b' ');
    w.put_decimal(n);
}

// Numbers, each after a space.
fn put_numbers<N: Whole>(w: &mut Writer, numbers: &[N])
    ensures { Writes w.old (spaced (map N.value numbers.now)) w.new }
{
    for n in numbers {
        put_number(w, n.long());
    }
}

// A line of numbers after a name.
fn put_row<N: Whole>(w: &mut Writer, name: &[u8], numbers: &[N])
    ensures { Writes w.old (line name.now (map N.value numbers.now)) w.new }
{
    w.put_text(name);
    put_numbers(w, numbers);
    w.put_byte(b'\n');
}

// A line of the first words after a name.
fn put_line(w: &mut Writer, name: &[u8], words: &[u32], used: usize)
    ensures { Writes w.old (line name.now (take used words.now)) w.new }
{
    let n = used.min(words.len());
    put_row(w, name, &words[..n]);
}

// An answer's five numbers after their name. The line ends behind what a call adds to them.
fn put_answer(w: &mut Writer, a: Answer)
    ensures { Writes w.old (named_answer a) w.new }
{
    w.put_text(b"answer");
    let five = [a.number as usize, a.place, a.tokens, a.taken, a.events];
    put_numbers(w, &five);
}

// The end of the answer's line, and the lines of the token and event words, two of these for each event.
fn put_buffers(w: &mut Writer, a: Answer, tokens: &[u32], events: &[u32])
    ensures { Writes w.old (10 ∷ word_lines a tokens.now events.now) w.new }
{
    let used = a.events.min(events.len()) * EVENT_WORDS;
    w.put_byte(b'\n');
    put_line(w, b"tokens", tokens, a.tokens);
    put_line(w, b"events", events, used);
    let rests = [
        rest_of(tokens, a.number, a.tokens),
        rest_of(events, a.number, used),
    ];
    put_row(w, b"rest", &rests);
}

// The lines of words that a call writes besides: those that it used, and how many of the others keep what they held.
fn put_more(w: &mut Writer, number: u32, used: usize, words: &[u32])
    ensures { Writes w.old (more_lines number used words.now) w.new }
{
    put_line(w, b"more", words, used);
    let left = [rest_of(words, number, used)];
    put_row(w, b"left", &left);
}

// The four lines of a record.
pub fn put_record(w: &mut Writer, a: Answer, tokens: &[u32], events: &[u32])
    ensures { Writes w.old (record_lines a [] tokens.now events.now) w.new }
{
    put_answer(w, a);
    put_buffers(w, a, tokens, events);
}

// The six lines of a record of the tree call.
pub fn put_tree(w: &mut Writer, a: TreeAnswer, tokens: &[u32], events: &[u32], records: &[u32])
    ensures { Writes w.old (tree_lines a tokens.now events.now records.now) w.new }
{
    let answer = a.answer;
    let used = a.records.min(records.len()) * 4;
    put_answer(w, answer);
    put_number(w, a.records as u64);
    put_buffers(w, answer, tokens, events);
    put_more(w, answer.number, used, records);
}

// The four lines of a record of the value call.
pub fn put_valued(w: &mut Writer, a: ValueAnswer, tokens: &[u32], events: &[u32])
    ensures { Writes w.old (value_lines a tokens.now events.now) w.new }
{
    put_answer(w, a.answer);
    w.put_byte(b' ');
    w.put_signed(a.value);
    put_buffers(w, a.answer, tokens, events);
}

// The line of a record of number parts.
pub fn put_parts(w: &mut Writer, n: Number)
    ensures { Writes w.old (line (bytes "parts") (part_numbers n)) w.new }
{
    let eight = part_numbers(n);
    put_row(w, b"parts", &eight);
}
