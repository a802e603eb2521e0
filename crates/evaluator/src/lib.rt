// Constants: what the first value of an association comes to, in one pass over its tokens. Signs stand before an operand, operands with `*`
// between them make a product, products with `+` or `-` between them a sum; so no memory but what each has come to is needed.

#![tactic(auto)]

ghost use Rattle.std.specs.Prelude.{◌≡◌, ℕ, List, [], ◌∷◌, drop};
ghost use Rattle.predictive.specs.Grammar.{has};
ghost use Rattle.aadl.specs.Kinds as K;
ghost use Rattle.aadl.specs.Kinds.{#◌};
ghost use Rattle.aadl.specs.Symbols.{symbols};
ghost use Rattle.aadl.specs.Values as Vs;
ghost use Rattle.aadl.specs.Values.{number_at};
ghost use Rattle.int64.specs.Integers.{integer, ResultOf};
ghost use Rattle.section.specs.Reaching.{Reached, Stands};
ghost use Rattle.evaluator.specs.Pass.{evaluated};
ghost use Rattle.evaluator.specs.Terms.{operator, OperatorOf, Joins, Completes, Then, Ends, SignsPassed, OperandRead, SumRead, ArrowPassed, ValueRead, FirstValue};

use int64::{MOST, Whole, add, multiply};
use literals::literal_number;
use parser::Tokens;
use syntax_kind::{
    CONSTANT_KW, DOT_DOT, FAT_ARROW, IDENT, INTEGER_LIT, MINUS, PLUS, PLUS_ARROW, SLASH, STAR,
};

// What an operand or a sum comes to: a number; or where the first literal or operator starts that is beyond the range.
pub type Outcome = Result<Whole, usize>;

// OPERATORS

#[derive(Clone, Copy)]
enum Operator {
    Times,
    Plus,
    Minus,
}

// The operator of a kind, if it is one's.
fn operator_of(kind: u32) -> Option<Operator>
    ensures { OperatorOf kind result }
{
    match kind {
        STAR => Some(Operator::Times),
        PLUS => Some(Operator::Plus),
        MINUS => Some(Operator::Minus),
        _ => None,
    }
}

fn operate(op: Operator, x: Whole, y: Whole) -> Option<Whole>
    ensures { ResultOf (Vs.operate (operator op) (integer x) (integer y)) result }
{
    match op {
        Operator::Times => multiply(x, y),
        Operator::Plus => add(x, y),
        Operator::Minus => add(x, -y),
    }
}

// "Left operand, right operand, then their operator": the first that leaves the range.
fn join(op: Operator, place: usize, x: Outcome, y: Outcome) -> Outcome
    ensures { Joins op place x y result }
{
    operate(op, x?, y?).ok_or(place)
}

// OPERANDS

// Passes the signs before an operand: whether an odd number of them is minus.
fn signs(tokens: &mut Tokens<'_>) -> bool
    requires { Stands tokens.old }
    ensures { (k : ℕ) → Reached tokens.old.text.now k tokens.old → SignsPassed tokens.old.text.now k result tokens.new }
{
    let mut negative = false;
    let mut kind = tokens.current();
    while (kind == PLUS) | (kind == MINUS) {
        negative = negative != (kind == MINUS);
        tokens.pass();
        kind = tokens.current();
    }
    negative
}

// A literal behind its signs. "A literal is at most 9,223,372,036,854,775,807 even after a minus sign."
fn operand(tokens: &mut Tokens<'_>) -> Option<Outcome>
    requires { Stands tokens.old }
    ensures { (k : ℕ) → Reached tokens.old.text.now k tokens.old → OperandRead tokens.old.text.now k result tokens.new }
{
    let negative = signs(tokens);
    if tokens.current() != INTEGER_LIT {
        return None;
    }
    let place = tokens.byte;
    let size = literal_number(tokens.text, place)?;
    tokens.pass();
    if MOST <= size {
        return Some(Err(place));
    }
    Some(Ok(Whole { negative, size }))
}

// SUMS

// A left operand that waits for the right one, with their operator and where that starts.
#[derive(Clone, Copy)]
struct Waiting {
    pub op: Operator,
    pub place: usize,
    pub left: Outcome,
}

// What waits in a sum: the terms so far for a product, and the factors so far for an operand.
#[derive(Clone, Copy)]
struct Terms {
    pub sum: Option<Waiting>,
    pub product: Option<Waiting>,
}

// An operand with what waits for it.
fn completed(waiting: Option<Waiting>, operand: Outcome) -> Outcome
    ensures { Completes waiting operand result }
{
    match waiting {
        Some(w) => join(w.op, w.place, w.left, operand),
        None => operand,
    }
}

impl Terms {
    // What waits behind an operand and an operator: `*` makes the product wait for the next operand, `+` and `-` the sum for the next product.
    fn then(self, op: Operator, place: usize, operand: Outcome) -> Terms
        ensures { Then self op place operand result }
    {
        let product = completed(self.product, operand);
        match op {
            Operator::Times => Terms {
                sum: self.sum,
                product: Some(Waiting {
                    op,
                    place,
                    left: product,
                }),
            },
            Operator::Plus | Operator::Minus => Terms {
                sum: Some(Waiting {
                    op,
                    place,
                    left: completed(self.sum, product),
                }),
                product: None,
            },
        }
    }

    // The sum whose last operand this is.
    fn ends(self, operand: Outcome) -> Outcome
        ensures { Ends self operand result }
    {
        completed(self.sum, completed(self.product, operand))
    }
}

// Operands with operators between them. `operand` has one call in the code: so it is put into its caller, and outcomes stay in registers.
fn sum(tokens: &mut Tokens<'_>) -> Option<Outcome>
    requires { Stands tokens.old }
    ensures { (k : ℕ) → Reached tokens.old.text.now k tokens.old → SumRead tokens.old.text.now k result tokens.new }
{
    let mut terms = Terms {
        sum: None,
        product: None,
    };
    loop {
        let next = operand(tokens)?;
        let Some(op) = operator_of(tokens.current()) else {
            return Some(terms.ends(next));
        };
        terms = terms.then(op, tokens.byte, next);
        tokens.pass();
    }
}

// THE VALUE

// Passes an association's name and its arrow.
fn past_arrow(tokens: &mut Tokens<'_>)
    requires { Stands tokens.old }
    ensures { (k : ℕ) → Reached tokens.old.text.now k tokens.old → ArrowPassed tokens.old.text.now k tokens.new }
{
    while tokens.at < tokens.words.len() {
        let kind = tokens.current();
        tokens.pass();
        if (kind == FAT_ARROW) | (kind == PLUS_ARROW) {
            return;
        }
    }
}

// What makes a value no constant where it stands behind a sum: `/`, `..`, or a name, which is a unit.
fn goes_on(kind: u32) -> bool
    ensures { result ≡ has (# K.SLASH ∷ # K.DOT_DOT ∷ # K.IDENT ∷ []) kind }
{
    matches!(kind, SLASH | DOT_DOT | IDENT)
}

// The value that begins where tokens stand; none if it is no constant.
fn value(tokens: &mut Tokens<'_>) -> Option<Outcome>
    requires { Stands tokens.old }
    ensures { (k : ℕ) → Reached tokens.old.text.now k tokens.old → ValueRead tokens.old.text.now (evaluated (number_at tokens.old.text.now) k (drop k (symbols tokens.old.text.now))) result }
{
    let all = sum(tokens)?;
    if goes_on(tokens.current()) {
        return None;
    }
    Some(all)
}

// The first value of the association at which tokens stand; none if it is no constant.
pub fn first_value(mut tokens: Tokens<'_>) -> Option<Outcome>
    requires { Stands tokens }
    ensures { (k : ℕ) → Reached tokens.entry.text.now k tokens.entry → FirstValue tokens.entry.text.now k result }
{
    past_arrow(&mut tokens);
    if tokens.current() == CONSTANT_KW {
        tokens.pass();
    }
    value(&mut tokens)
}
