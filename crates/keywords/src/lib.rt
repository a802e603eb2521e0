// Which kind a word has, in any mix of ASCII case. The word is not copied: its letters are compared where they stand, one by one, with those
// of one word of the table, the only one that it can be by its hash.

#![tactic(auto)]

mod tables; // tables.rt: the table of words by columns

ghost use Rattle.std.specs.Prelude.{◌≤◌, ◌<◌, ◌≡◌, length, zip};
ghost use Rattle.std.specs.List.{list_all};
ghost use Rattle.aadl.specs.Words.{row, same, kind_of_word};
ghost use Rattle.aadl.specs.WordKinds.{OwnKind};
ghost use Rattle.keywords.specs.Tables.{hash_of, is_case};

use syntax_kind::IDENT;
use tables::{KINDS, LENGTHS, LETTERS, SLOTS, STARTS};

// The kind of a word: its own if it is one of the eighty-one, else IDENT.
pub fn from_keyword(word: &[u8]) -> u32
    ensures kind { result ≡ kind_of_word word.now }
    ensures own_kind { OwnKind word.now result }
{
    let n = word.len();
    // no word of the table has more than 14 letters, and the hash needs one
    if (n < 1) | (14 < n) {
        return IDENT;
    }
    let i = usize::from(SLOTS[hash(word)]);
    if is_word_in(word, i) {
        return u32::from(KINDS[i]);
    }
    IDENT
}

// The slot of a word: SLOTS in tables.rt says by what rule. The two cases of a letter differ by 32.
fn hash(word: &[u8]) -> usize
    requires { (1 ≤ length word.now) × (length word.now ≤ 14) }
    ensures { result ≡ hash_of word.now }
{
    let n = word.len();
    (n * 8
        + usize::from(word[0]) % 32 * 23
        + usize::from(word[n - 1]) % 32 * 5
        + usize::from(word[n / 2]) % 32 * 25)
        % 256
}

// The word of a row.
fn spelling(i: usize) -> &'static [u8]
    requires { i < 82 }
    ensures { result.now ≡ (row i).word }
{
    let from = usize::from(STARTS[i]);
    let end = from + usize::from(LENGTHS[i]);
    &LETTERS[from..end]
}

// Whether a byte is a letter of the table or its capital, which is 32 less: `to_ascii_lowercase` of each byte takes a third more instructions.
fn is_case_of(v: u8, b: u8) -> bool
    ensures { result ≡ is_case v b }
{
    v == b || v.wrapping_sub(32) == b
}

// Whether each letter of a word is the one at its place, without its case.
fn same_letters(own: &[u8], word: &[u8]) -> bool
    ensures { result ≡ list_all (λ p. is_case p.0 p.1) (zip own.now word.now) }
{
    own.iter().zip(word).all(|(v, b)| is_case_of(*v, *b))
}

// Whether a word is that of a row: as many letters, and each the same without its case.
fn is_word_in(word: &[u8], i: usize) -> bool
    requires { i < 82 }
    ensures { result ≡ same (row i).word word.now }
{
    let own = spelling(i);
    own.len() == word.len() && same_letters(own, word)
}
