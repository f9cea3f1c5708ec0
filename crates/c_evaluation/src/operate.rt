//! Operators on values.
ghost use Rattle.std.specs.Prelude.{◌≡◌, ◌<◌, ◌+ℤ◌, ◌-ℤ◌, ◌*ℤ◌, int_div, int_rem, neg_ℤ, if◌then◌else◌};
ghost use Rattle.c_meaning.specs.Cells.{Word};
ghost use Rattle.c_meaning.specs.Values as m;
ghost use Rattle.c_cells.specs.Halts.{said};
ghost use Rattle.c_evaluation.specs.Values.{value_of, content_of};
ghost use Rattle.c_evaluation.specs.Operators.{of_ints, of_words, of_shift, shift_of};

use crate::scope::Scope;
use crate::types::alike;
use crate::value::{Content, Value, as_int, as_word, held, type_of};
use c_meaning::StuckKind;
use c_tree::operators::{CBinary, CUnary};

/// 1 or 0.
#[tactic(auto, unfolding(c_meaning::specs::Values::truth, c_meaning::specs::Values::int))]
fn truth<'a>(holds: bool) -> Value<'a>
    ensures { value_of result ≡ m.truth holds }
{
    if holds { Value::Int(1) } else { Value::Int(0) }
}

#[tactic(auto, using(crate::proofs::Exact::fits, crate::proofs::Exact::over))]
fn sum<'a>(x: i64, y: i64) -> Result<Value<'a>, StuckKind>
    ensures { said value_of result ≡ m.exact (x +ℤ y) }
{
    match x.checked_add(y) {
        Some(z) => Ok(Value::Int(z)),
        None => Err(StuckKind::Overflow),
    }
}

#[tactic(auto, using(crate::proofs::Exact::fits, crate::proofs::Exact::over))]
fn difference<'a>(x: i64, y: i64) -> Result<Value<'a>, StuckKind>
    ensures { said value_of result ≡ m.exact (x -ℤ y) }
{
    match x.checked_sub(y) {
        Some(z) => Ok(Value::Int(z)),
        None => Err(StuckKind::Overflow),
    }
}

#[tactic(auto, using(crate::proofs::Exact::fits, crate::proofs::Exact::over))]
fn product<'a>(x: i64, y: i64) -> Result<Value<'a>, StuckKind>
    ensures { said value_of result ≡ m.exact (x *ℤ y) }
{
    match x.checked_mul(y) {
        Some(z) => Ok(Value::Int(z)),
        None => Err(StuckKind::Overflow),
    }
}

#[tactic(auto, using(crate::proofs::Exact::quotient_fits, crate::proofs::Exact::quotient_over, crate::proofs::Exact::by_zero))]
fn quotient<'a>(x: i64, y: i64) -> Result<Value<'a>, StuckKind>
    ensures { said value_of result ≡ m.divided int_div x y }
{
    if y == 0 {
        return Err(StuckKind::ZeroDivide);
    }
    match x.checked_div(y) {
        Some(z) => Ok(Value::Int(z)),
        None => Err(StuckKind::Overflow),
    }
}

/// The remainder by -1 is 0, also where the quotient is too large.
#[tactic(auto, using(crate::proofs::Exact::rest_fits, crate::proofs::Exact::rest_by_one, crate::proofs::Exact::by_zero))]
fn rest<'a>(x: i64, y: i64) -> Result<Value<'a>, StuckKind>
    ensures { said value_of result ≡ m.divided int_rem x y }
{
    if y == 0 {
        return Err(StuckKind::ZeroDivide);
    }
    if y == -1 {
        return Ok(Value::Int(0));
    }
    Ok(Value::Int(x % y))
}

fn on_numbers<'a>(op: CBinary, x: i64, y: i64) -> Result<Value<'a>, StuckKind>
    ensures { said value_of result ≡ of_ints op x y }
{
    match op {
        CBinary::Add => sum(x, y),
        CBinary::Subtract => difference(x, y),
        CBinary::Multiply => product(x, y),
        CBinary::Divide => quotient(x, y),
        CBinary::Remainder => rest(x, y),
        CBinary::Less => Ok(truth(x < y)),
        CBinary::AtMost => Ok(truth(x <= y)),
        CBinary::Greater => Ok(truth(x > y)),
        CBinary::AtLeast => Ok(truth(x >= y)),
        _ => Err(StuckKind::Mismatch),
    }
}

/// Whether two scalars hold the same.
#[tactic(auto, unfolding(c_meaning::specs::Values::cell_eq))]
fn same_content(x: Content, y: Content) -> Result<bool, StuckKind>
    ensures { said (λ b. b) result ≡ m.cell_eq (content_of x.entry) (content_of y.entry) }
{
    match (x, y) {
        (Content::Int(a), Content::Int(b)) => Ok(a == b),
        (Content::Word(a), Content::Word(b)) => Ok(a == b),
        (Content::Null, Content::Null) => Ok(true),
        (Content::Null, Content::Pointer(_, _)) => Ok(false),
        (Content::Pointer(_, _), Content::Null) => Ok(false),
        (Content::Null, Content::Function(_)) => Ok(false),
        (Content::Function(_), Content::Null) => Ok(false),
        (Content::Pointer(a, p), Content::Pointer(b, q)) => {
            Ok(a == b && p.as_slice() == q.as_slice())
        }
        (Content::Function(f), Content::Function(g)) => Ok(f.as_slice() == g.as_slice()),
        _ => Err(StuckKind::Mismatch),
    }
}

/// Whether two scalars of alike types are equal.
#[tactic(auto, using(crate::proofs::Binary::equal_unlike, crate::proofs::Binary::equal_left, crate::proofs::Binary::equal_right, crate::proofs::Binary::equal_both))]
fn equal(scope: &Scope, x: &Value, y: &Value) -> Result<bool, StuckKind>
    ensures { said (λ b. b) result ≡ m.equal scope.now.program.now.declarations (value_of x.now) (value_of y.now) }
{
    if !alike(scope, type_of(x), type_of(y)) {
        return Err(StuckKind::Mismatch);
    }
    match (held(x), held(y)) {
        (Ok(a), Ok(b)) => same_content(a, b),
        (Ok(_), Err(kind)) => Err(kind),
        (Err(kind), _) => Err(kind),
    }
}

/// An operator on two `int64_t`.
#[tactic(auto, using(crate::proofs::Binary::ints_left, crate::proofs::Binary::ints_right, crate::proofs::Binary::ints_both))]
fn on_ints<'a>(op: CBinary, x: &Value, y: &Value) -> Result<Value<'a>, StuckKind>
    ensures { said value_of result ≡ m.on_ints (of_ints op) (value_of x.now) (value_of y.now) }
{
    match (as_int(x), as_int(y)) {
        (Ok(a), Ok(b)) => on_numbers(op, a, b),
        (Ok(_), Err(kind)) => Err(kind),
        (Err(kind), _) => Err(kind),
    }
}

fn bits(op: CBinary, x: u64, y: u64) -> u64
    ensures { result ≡ of_words op x y }
{
    match op {
        CBinary::BitAnd => x & y,
        CBinary::BitOr => x | y,
        _ => x ^ y,
    }
}

/// An operator on two `uint64_t`.
#[tactic(auto, using(crate::proofs::Binary::words_left, crate::proofs::Binary::words_right, crate::proofs::Binary::words_both))]
fn on_words<'a>(op: CBinary, x: &Value, y: &Value) -> Result<Value<'a>, StuckKind>
    ensures { said value_of result ≡ m.on_words (of_words op) (value_of x.now) (value_of y.now) }
{
    match (as_word(x), as_word(y)) {
        (Ok(a), Ok(b)) => Ok(Value::Word(bits(op, a, b))),
        (Ok(_), Err(kind)) => Err(kind),
        (Err(kind), _) => Err(kind),
    }
}

#[tactic(auto, unfolding(c_meaning::specs::Values::shifted_left, c_meaning::specs::Values::shifted_right))]
fn shift_word(op: CBinary, a: u64, count: u32) -> u64
    requires { count < 64 }
    ensures { result ≡ of_shift op a count }
{
    match op {
        CBinary::ShiftLeft => a << count,
        _ => a >> count,
    }
}

/// A word shifted by a number.
#[tactic(auto, using(crate::proofs::Binary::shift_within, crate::proofs::Binary::shift_below, crate::proofs::Binary::shift_above))]
fn shift_by<'a>(op: CBinary, a: u64, z: i64) -> Result<Value<'a>, StuckKind>
    ensures { said value_of result ≡ shift_of (of_shift op) a z }
{
    if z < 0 {
        return Err(StuckKind::BadShift);
    }
    if z >= 64 {
        return Err(StuckKind::BadShift);
    }
    Ok(Value::Word(shift_word(op, a, z as u32)))
}

/// A word shifted by a value.
#[tactic(auto, using(crate::proofs::Binary::word_count_none, crate::proofs::Binary::word_count))]
fn shift_word_by<'a>(op: CBinary, a: u64, y: &Value) -> Result<Value<'a>, StuckKind>
    ensures { said value_of result ≡ m.shifted (of_shift op) (Word a) (value_of y.now) }
{
    match as_int(y) {
        Ok(z) => shift_by(op, a, z),
        Err(kind) => Err(kind),
    }
}

/// A shift of a value, the count being an `int64_t`.
#[tactic(auto, using(crate::proofs::Binary::shift_none, crate::proofs::Binary::shift_int, crate::proofs::Binary::shift_other, crate::proofs::Binary::shift_cell))]
fn shift<'a>(op: CBinary, x: &Value, y: &Value) -> Result<Value<'a>, StuckKind>
    ensures { said value_of result ≡ m.shift (of_shift op) (value_of x.now) (value_of y.now) }
{
    match held(x) {
        Err(kind) => Err(kind),
        Ok(Content::Word(a)) => shift_word_by(op, a, y),
        Ok(Content::Int(_)) => Err(StuckKind::BadShift),
        Ok(_) => Err(StuckKind::Mismatch),
    }
}

/// Whether a number is 0.
#[tactic(auto, using(crate::proofs::Exact::zero_bits))]
pub fn is_zero(z: i64) -> bool
    ensures { result ≡ m.is_zero z }
{
    z == 0
}

/// Whether an `int64_t` is other than 0, as 1 or 0.
#[tactic(auto, using(crate::proofs::Binary::truth_none, crate::proofs::Binary::truth_some))]
fn truth_of<'a>(x: &Value) -> Result<Value<'a>, StuckKind>
    ensures { said value_of result ≡ m.truth_of (value_of x.now) }
{
    match as_int(x) {
        Ok(z) => Ok(truth(!is_zero(z))),
        Err(kind) => Err(kind),
    }
}

/// Whether two values are equal, or differ, as 1 or 0.
#[tactic(auto, using(crate::proofs::Binary::same_none, crate::proofs::Binary::same_some, crate::proofs::Binary::other_none, crate::proofs::Binary::other_some))]
fn equality<'a>(scope: &Scope, negated: bool, x: &Value, y: &Value) -> Result<Value<'a>, StuckKind>
    ensures { said value_of result ≡ m.binary scope.now.program.now.declarations (if negated then CBinary.NotEqual else CBinary.Equal) (value_of x.now) (value_of y.now) }
{
    match equal(scope, x, y) {
        Ok(same) => Ok(truth(same != negated)),
        Err(kind) => Err(kind),
    }
}

/// An operator on two values.
#[tactic(auto, unfolding(c_meaning::specs::Values::binary, c_meaning::specs::Values::ordered))]
pub fn binary<'a>(scope: &Scope, op: CBinary, x: &Value, y: &Value) -> Result<Value<'a>, StuckKind>
    ensures { said value_of result ≡ m.binary scope.now.program.now.declarations op (value_of x.now) (value_of y.now) }
{
    match op {
        CBinary::Add => on_ints(CBinary::Add, x, y),
        CBinary::Subtract => on_ints(CBinary::Subtract, x, y),
        CBinary::Multiply => on_ints(CBinary::Multiply, x, y),
        CBinary::Divide => on_ints(CBinary::Divide, x, y),
        CBinary::Remainder => on_ints(CBinary::Remainder, x, y),
        CBinary::Less => on_ints(CBinary::Less, x, y),
        CBinary::AtMost => on_ints(CBinary::AtMost, x, y),
        CBinary::Greater => on_ints(CBinary::Greater, x, y),
        CBinary::AtLeast => on_ints(CBinary::AtLeast, x, y),
        CBinary::Equal => equality(scope, false, x, y),
        CBinary::NotEqual => equality(scope, true, x, y),
        CBinary::And => truth_of(y),
        CBinary::Or => truth_of(y),
        CBinary::BitAnd => on_words(CBinary::BitAnd, x, y),
        CBinary::BitOr => on_words(CBinary::BitOr, x, y),
        CBinary::BitXor => on_words(CBinary::BitXor, x, y),
        CBinary::ShiftLeft => shift(CBinary::ShiftLeft, x, y),
        CBinary::ShiftRight => shift(CBinary::ShiftRight, x, y),
    }
}

/// An operator on a value.
#[tactic(auto, using(crate::proofs::Exact::fits, crate::proofs::Exact::over, crate::proofs::Binary::minus_none, crate::proofs::Binary::minus_some, crate::proofs::Binary::not_none, crate::proofs::Binary::not_some, crate::proofs::Binary::complement_none, crate::proofs::Binary::complement_some))]
pub fn unary<'a>(op: CUnary, x: &Value) -> Result<Value<'a>, StuckKind>
    ensures { said value_of result ≡ m.unary op (value_of x.now) }
{
    match op {
        CUnary::Minus => match as_int(x) {
            Ok(z) => negative(z),
            Err(kind) => Err(kind),
        },
        CUnary::Not => match as_int(x) {
            Ok(z) => Ok(truth(is_zero(z))),
            Err(kind) => Err(kind),
        },
        CUnary::Complement => match as_word(x) {
            Ok(n) => Ok(Value::Word(!n)),
            Err(kind) => Err(kind),
        },
    }
}

#[tactic(auto, using(crate::proofs::Exact::fits, crate::proofs::Exact::over))]
fn negative<'a>(z: i64) -> Result<Value<'a>, StuckKind>
    ensures { said value_of result ≡ m.exact (neg_ℤ z) }
{
    match z.checked_neg() {
        Some(z) => Ok(Value::Int(z)),
        None => Err(StuckKind::Overflow),
    }
}
