// What a literal of a whole number stands for: its digits in its base. No number here passes 2 to the 63rd, which is above every literal that
// is in the range.

#![tactic(auto)]

ghost use Rattle.std.specs.Prelude.{◌≡◌, true, ◌+◌, ◌*◌, ◌/◌, ◌≤◌, min, length, drop};
ghost use Rattle.aadl.specs.Bytes.{peek, is_digit};
ghost use Rattle.aadl.specs.NumberParts.{PartsHold};
ghost use Rattle.aadl.specs.Values.{digits, in_base, number_by_parts, literal_number};
ghost use Rattle.int64.specs.Integers.{most};
ghost use Rattle.literals.specs.Capped.{LiteralOf};

use aadl::Number;
use classes::{DIGITS, run_end};
use int64::MOST;
use scan::number_from;

// A number with a digit behind it, at most MOST; limit is the greatest number that has a place for one more digit. By tests, not by saturating
// operations: in a long literal each digit waits for the number before it.
fn append(n: u64, base: u32, limit: u64, d: u32) -> u64
    requires { (1 ≤ base) × (limit ≡ most / base) }
    ensures { result ≡ min (n * base + d) most }
{
    if limit < n {
        return MOST;
    }
    let longer = n * u64::from(base);
    if MOST - longer < u64::from(d) {
        return MOST;
    }
    longer + u64::from(d)
}

// The number of digits in a base, at most MOST; none where there is no digit, or one that is not below the base.
#[inline(always)]
fn in_base(part: &[u8], base: u32) -> Option<u64>
    requires { (2 ≤ base) × (base ≤ 16) }
    ensures { LiteralOf (in_base base (digits part.now)) result }
{
    let limit = MOST / u64::from(base);
    let mut number = None;
    for &b in part {
        if b != b'_' {
            let d = char::from(b).to_digit(base)?;
            number = Some(append(number.unwrap_or(0), base, limit, d));
        }
    }
    number
}

// The literal of a number at the front of some bytes, by its parts.
fn by_parts(bytes: &[u8], n: Number) -> Option<u64>
    requires { PartsHold bytes.now n × (n.len ≤ length bytes.now) }
    ensures { LiteralOf (number_by_parts bytes.now n) result }
{
    let inner = &bytes[n.inner.begin..n.inner.end];
    if n.base.end == 0 {
        return in_base(inner, 10);
    }
    let base = in_base(&bytes[n.base.begin..n.base.end], 10)?;
    if ((2 <= base) & (base <= 16)) & n.closed {
        return in_base(inner, base as u32);
    }
    None
}

// The number of the literal at a place, where a digit stands, at most MOST; none where it breaks a rule of its form.
pub fn literal_number(s: &[u8], at: usize) -> Option<u64>
    requires { is_digit (peek s.now at) ≡ true }
    ensures { LiteralOf (literal_number (drop at s.now)) result }
{
    let d = run_end(s, at, DIGITS);
    let n = number_from(s, at, d);
    by_parts(&s[at..], n)
}
