// Words counted and found by where they lie among all words: many at once, since nothing but the words' order is asked.

#![tactic(auto)]

ghost use Rattle.std.specs.Prelude.{◌≡◌, ◌<◌, cond, length};
ghost use Rattle.std.specs.Option.{SomeIff};
ghost use Rattle.aadl.specs.Tokens.{total};
ghost use Rattle.bands.specs.Bands.{within_band, tally, nth_within};

use codec::length_in;
use std::ops::Range;

// How many words are gone over at once.
const STRIDE: usize = 64;

// How many words lie in a band: in the words' own 32 bits, so that more are counted at once.
fn count(words: &[u32], band: &Range<u32>) -> usize
    requires { length words.now < 4294967296 }
    ensures { result ≡ tally band.now words.now }
{
    let one_within = |w: &u32| -> u32
        ensures { result ≡ cond (within_band band.entry.now w.now) 1 0 }
    { u32::from(band.contains(w)) };
    let n: u32 = words.iter().map(one_within).sum();
    n as usize
}

// Which word is the one in a band with a number, from 0, word by word.
fn find_in(words: &[u32], band: &Range<u32>, number: usize) -> Option<usize>
    ensures { SomeIff result (nth_within band.now number words.now < length words.now) (nth_within band.now number words.now) }
{
    let mut left = number;
    for (i, w) in words.iter().enumerate() {
        if band.contains(w) {
            if left == 0 {
                return Some(i);
            }
            left -= 1;
        }
    }
    None
}

// Which word is the one in a band with a number, from 0.
pub fn find(words: &[u32], band: Range<u32>, number: usize) -> Option<usize>
    requires { length words.now < 4294967296 }
    ensures { SomeIff result (nth_within band number words.now < length words.now) (nth_within band number words.now) }
{
    let mut left = number;
    let mut rest = words;
    while let Some((stride, behind)) = rest.split_first_chunk::<STRIDE>() {
        let n = count(stride, &band);
        if left < n {
            break;
        }
        left -= n;
        rest = behind;
    }
    let passed = words.len() - rest.len();
    find_in(rest, &band, left).map(|i| passed + i)
}

// The sum of the lengths in words.
pub fn sum_of_lengths(words: &[u32]) -> usize
    requires { total words.now < 4294967296 }
    ensures { result ≡ total words.now }
{
    words.iter().map(|w| length_in(*w)).sum()
}
