// Whole numbers by sign and size: sums and products in the signed 64-bit range. Each operation is tested as it is made, so that none
// wraps; a result that leaves the range is none.

#![tactic(auto)]

ghost use Rattle.std.specs.Prelude.{◌≤◌, ◌≡◌, true, neg_ℤ, ◌+ℤ◌, ◌*ℤ◌};
ghost use Rattle.aadl.specs.Values.{in_range};
ghost use Rattle.int64.specs.Integers.{most, by_sign, integer, ResultOf};

use std::ops::Neg;

// A whole number by its sign and its size. Zero may have either sign. No size is ruled out, since `add`, `multiply` and `to_i64` promise for each.
#[derive(Clone, Copy)]
pub struct Whole {
    pub negative: bool,
    pub size: u64,
}

// The greatest size: that of the least number. No positive number of the range has it.
pub const MOST: u64 = 9223372036854775808;

// The number, if it is in the signed 64-bit range.
fn fitted(negative: bool, size: u64) -> Option<Whole>
    ensures { ResultOf (by_sign negative size) result }
{
    let fits = (size < MOST) | (negative & (size == MOST));
    fits.then_some(Whole { negative, size })
}

pub fn add(x: Whole, y: Whole) -> Option<Whole>
    ensures { ResultOf (integer x +ℤ integer y) result }
{
    if x.negative == y.negative {
        return fitted(x.negative, x.size.checked_add(y.size)?);
    }
    if x.size < y.size {
        return fitted(y.negative, y.size - x.size);
    }
    fitted(x.negative, x.size - y.size)
}

pub fn multiply(x: Whole, y: Whole) -> Option<Whole>
    ensures { ResultOf (integer x *ℤ integer y) result }
{
    fitted(x.negative != y.negative, x.size.checked_mul(y.size)?)
}

impl Neg for Whole {
    type Output = Whole;

    ghost neg_gives = { λ x r. (integer r ≡ neg_ℤ (integer x)) × (r.size ≡ x.size) };

    fn neg(self) -> Whole {
        Whole {
            negative: !self.negative,
            size: self.size,
        }
    }
}

// The same number by its bits.
pub fn to_i64(x: Whole) -> i64
    requires { in_range (integer x) ≡ true }
    ensures { result ≡ integer x }
{
    if x.negative {
        return 0i64.saturating_sub_unsigned(x.size);
    }
    0i64.saturating_add_unsigned(x.size)
}

// The same number by its sign and size.
impl From<i64> for Whole {
    ghost from_gives = { λ v w. (integer w ≡ v) × (w.size ≤ most) };

    fn from(v: i64) -> Whole {
        Whole {
            negative: v < 0,
            size: v.unsigned_abs(),
        }
    }
}
