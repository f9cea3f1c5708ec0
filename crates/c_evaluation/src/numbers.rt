//! Numbers of `int64_t` whose names are resolved before the program runs. Where such a number is
//! not found, the expression is evaluated step by step.
ghost use Rattle.std.specs.Prelude.{◌≡◌, List, map, Some, true, false, pos, IfSome, IfOk};
ghost use Rattle.c_tree.specs.Tree as t;
ghost use Rattle.c_tree.specs.Tree.{Expr};
ghost use Rattle.c_tree.specs.declared.program.CDeclaration.{CDeclaration};
ghost use Rattle.c_tree.specs.declared.program.CVariable.{CVariable};
ghost use Rattle.c_tree.specs.declared.program.CProgram.{CProgram};
ghost use Rattle.c_meaning.specs.Answer.{Got};
ghost use Rattle.c_meaning.specs.Cells as c;
ghost use Rattle.c_meaning.specs.Cells.{block_at};
ghost use Rattle.c_meaning.specs.States.{global_from};
ghost use Rattle.c_meaning.specs.Values as w;
ghost use Rattle.name_tables.specs.Places.{first_from, function_name};
ghost use Rattle.c_cells.specs.Slots.{int_block};
ghost use Rattle.c_evaluation.specs.declared.numbers.Number.TheVariants as n;
ghost use Rattle.c_evaluation.specs.Numbers.{variables_of, place_number as number_placed, NamesVariable, IsVariable, Resolves, Holds, Evaluates, EvaluatesPair, EvaluatesTwo, Puts, Chooses, NamesNone};

use crate::evaluate::single_name;
use crate::function_names::Names;
use crate::lookup::variable_at;
use crate::operate::is_zero;
use c_cells::memory::Memory;
use c_tree::Name;
use c_tree::expr::{CExpr, CExprNode, CPlace};
use c_tree::operators::CBinary;
use std::alloc::{AllocError, Global};

/// A variable: its place among the parameters and locals of its function, or the number of a global.
#[derive(Clone, Copy)]
pub enum Variable {
    Own(usize),
    Global(usize),
}

/// A variable, or a number in the text.
#[derive(Clone, Copy)]
pub enum Operand {
    Variable(Variable),
    Written(i64),
}

/// An expression over numbers. An operator between two operands needs no memory of its own.
#[derive(Drop)]
pub enum Number {
    Operand(Operand),
    Pair(CBinary, Operand, Operand),
    Two(CBinary, Box<Number>, Box<Number>),
}

// ---- names

fn global_named(names: &Names, name: &Name) -> Option<usize>
    ensures { result ≡ global_from 0 name.now names.now.program.now.globals }
{
    names.tables.globals.get(name)
}

/// The variable that a name names.
#[tactic(auto, using(crate::proofs::Resolving::own_parameter, crate::proofs::Resolving::own_local, crate::proofs::Resolving::own_global))]
pub fn variable_named(names: &Names, name: &Name) -> Option<Variable>
    ensures { IfSome result (λ v. NamesVariable names.now.program.now (variables_of names.now) v name.now) }
{
    match variable_at(names.parameters, name) {
        Some(at) => Some(Variable::Own(at)),
        None => match variable_at(names.locals, name) {
            Some(at) => Some(Variable::Own(names.parameters.len().checked_add(at)?)),
            None => match global_named(names, name) {
                Some(at) => Some(Variable::Global(at)),
                None => None,
            },
        },
    }
}

/// Whether a name is that of a variable.
#[tactic(auto, using(crate::proofs::Resolving::no_variable))]
pub fn names_variable(names: &Names, name: &Name) -> bool
    ensures { result ≡ false → NamesNone names.now.program.now (variables_of names.now) name.now }
{
    match variable_at(names.parameters, name) {
        Some(_) => true,
        None => match variable_at(names.locals, name) {
            Some(_) => true,
            None => match global_named(names, name) {
                Some(_) => true,
                None => false,
            },
        },
    }
}

/// The first function with a name.
pub fn function_named(names: &Names, name: &Name) -> Option<usize>
    ensures { result ≡ first_from 0 name.now (map function_name names.now.program.now.functions) }
{
    names.tables.functions.get(name)
}

/// The variable that a place is.
pub fn variable_placed(names: &Names, place: &CPlace) -> Option<Variable>
    ensures { IfSome result (λ v. IsVariable names.now.program.now (variables_of names.now) v place.now) }
{
    match single_name(place) {
        Some(name) => variable_named(names, name),
        None => None,
    }
}

/// A number in the text.
fn small_number(n: u64) -> Option<i64>
    ensures { IfSome result (λ z. pos n ≡ z) }
{
    if n > i64::MAX as u64 {
        None
    } else {
        Some(n as i64)
    }
}

/// The operand that a number is.
fn operand_of(number: &Number) -> Option<Operand>
    ensures { IfSome result (λ a. number.now ≡ n.Operand a) }
{
    match number {
        Number::Operand(operand) => Some(*operand),
        _ => None,
    }
}

/// An operator between two operands.
#[tactic(auto, using(crate::proofs::Resolving::resolved_pair))]
fn pair_of(op: CBinary, x: &Number, y: &Number) -> Option<Number>
    ensures { IfSome result (λ n. (c : CProgram) (vars : List CVariable) (a b : Expr) → Resolves c vars x.now a → Resolves c vars y.now b → Resolves c vars n (t.Binary op a b)) }
{
    match (operand_of(x), operand_of(y)) {
        (Some(a), Some(b)) => Some(Number::Pair(op, a, b)),
        _ => None,
    }
}

/// An operator between two numbers.
fn two_of(alloc: Global, op: CBinary, x: Number, y: Number) -> Result<Number, AllocError>
    ensures { IfOk result (λ n. (c : CProgram) (vars : List CVariable) (a b : Expr) → Resolves c vars x a → Resolves c vars y b → Resolves c vars n (t.Binary op a b)) }
{
    if let Some(pair) = pair_of(op, &x, &y) {
        return Ok(pair);
    }
    let left = Box::new(alloc, x)?;
    let right = Box::new(alloc, y)?;
    Ok(Number::Two(op, left, right))
}

/// The number for which an expression stands, where it has one.
#[cycle(resolved)]
pub fn resolved(alloc: Global, names: &Names, e: &CExpr) -> Result<Option<Number>, AllocError>
    ensures { IfOk result (λ o. IfSome o (λ n. Resolves names.now.program.now (variables_of names.now) n e.now)) }
{
    match &e.node {
        CExprNode::Read(place) => Ok(match variable_placed(names, place.get()) {
            Some(variable) => Some(Number::Operand(Operand::Variable(variable))),
            None => None,
        }),
        CExprNode::Number(n) => Ok(match small_number(*n) {
            Some(z) => Some(Number::Operand(Operand::Written(z))),
            None => None,
        }),
        CExprNode::Binary(op, a, b) => resolved_two(alloc, names, *op, a.get(), b.get()),
        _ => Ok(None),
    }
}

#[cycle(resolved)]
fn resolved_two(
    alloc: Global,
    names: &Names,
    op: CBinary,
    a: &CExpr,
    b: &CExpr,
) -> Result<Option<Number>, AllocError>
    ensures { IfOk result (λ o. IfSome o (λ n. Resolves names.now.program.now (variables_of names.now) n (t.Binary op a.now b.now))) }
{
    match (resolved(alloc, names, a)?, resolved(alloc, names, b)?) {
        (Some(x), Some(y)) => Ok(Some(two_of(alloc, op, x, y)?)),
        _ => Ok(None),
    }
}

// ---- values

/// The number of a variable's block, where those of its function begin at `base`.
pub fn place_number(base: usize, variable: Variable) -> Option<usize>
    ensures { IfSome result (λ n. n ≡ number_placed base variable) }
{
    match variable {
        Variable::Own(at) => base.checked_add(at),
        Variable::Global(at) => Some(at),
    }
}

/// The number that a variable holds.
#[inline(always)]
fn number_held(memory: &Memory, base: usize, variable: Variable) -> Option<i64>
    ensures { IfSome result (λ z. block_at memory.now (number_placed base variable) ≡ Some (int_block (c.Int z))) }
{
    match variable {
        Variable::Own(at) => match base.checked_add(at) {
            Some(number) => memory.get_number(number),
            None => None,
        },
        Variable::Global(at) => memory.get_number(at),
    }
}

/// The number of an operand, where it is found so.
#[inline(always)]
fn held(memory: &Memory, base: usize, operand: Operand) -> Option<i64>
    ensures { IfSome result (λ z. Holds memory.now base operand z) }
{
    match operand {
        Operand::Variable(variable) => number_held(memory, base, variable),
        Operand::Written(z) => Some(z),
    }
}

/// The same of an operator between two.
#[inline(always)]
fn evaluated_pair(memory: &Memory, base: usize, op: CBinary, a: Operand, b: Operand) -> Option<i64>
    ensures { IfSome result (λ z. EvaluatesPair memory.now base op a b z) }
{
    match (held(memory, base, a), held(memory, base, b)) {
        (Some(x), Some(y)) => operation(op, x, y),
        _ => None,
    }
}

/// The number of an expression, where it is found so.
#[cycle(evaluated)]
#[inline(always)]
pub fn evaluated(memory: &Memory, base: usize, number: &Number) -> Option<i64>
    ensures { IfSome result (λ z. Evaluates memory.now base number.now z) }
{
    match number {
        Number::Operand(operand) => held(memory, base, *operand),
        Number::Pair(op, a, b) => evaluated_pair(memory, base, *op, *a, *b),
        Number::Two(op, a, b) => evaluated_two(memory, base, *op, a, b),
    }
}

#[cycle(evaluated)]
#[inline(never)]
fn evaluated_two(memory: &Memory, base: usize, op: CBinary, a: &Number, b: &Number) -> Option<i64>
    ensures { IfSome result (λ z. EvaluatesTwo memory.now base op a.now b.now z) }
{
    match (evaluated(memory, base, a), evaluated(memory, base, b)) {
        (Some(x), Some(y)) => operation(op, x, y),
        _ => None,
    }
}

/// `variable = number;`, where both are found so. Else nothing is done, and the answer is false.
#[tactic(auto, using(crate::proofs::Resolving::put))]
pub fn put_number(memory: &mut Memory, base: usize, variable: Variable, number: &Number) -> bool
    ensures stored { result ≡ true → Puts memory.old memory.new base variable number.now }
    ensures same { result ≡ false → memory.new ≡ memory.old }
{
    match (
        place_number(base, variable),
        evaluated(memory, base, number),
    ) {
        (Some(place), Some(z)) => memory.set_number(place, z),
        _ => false,
    }
}

/// What a test of a number chooses, where the number is found.
pub fn tested(memory: &Memory, base: usize, number: &Number) -> Option<bool>
    ensures { IfSome result (λ b. Chooses memory.now base number.now b) }
{
    match evaluated(memory, base, number) {
        Some(z) => Some(!is_zero(z)),
        None => None,
    }
}

/// 1 or 0.
#[tactic(auto, unfolding(c_meaning::specs::Values::truth))]
fn one_if(holds: bool) -> Option<i64>
    ensures { IfSome result (λ z. w.truth holds ≡ w.int z) }
{
    if holds { Some(1) } else { Some(0) }
}

#[tactic(auto, using(crate::proofs::Found::add))]
fn sum(x: i64, y: i64) -> Option<i64>
    ensures { (ds : List CDeclaration) → IfSome result (λ z. w.joined ds CBinary.Add (w.int x) (Got (w.int y)) ≡ Got (w.int z)) }
{
    x.checked_add(y)
}

#[tactic(auto, using(crate::proofs::Found::subtract))]
fn difference(x: i64, y: i64) -> Option<i64>
    ensures { (ds : List CDeclaration) → IfSome result (λ z. w.joined ds CBinary.Subtract (w.int x) (Got (w.int y)) ≡ Got (w.int z)) }
{
    x.checked_sub(y)
}

#[tactic(auto, using(crate::proofs::Found::multiply))]
fn product(x: i64, y: i64) -> Option<i64>
    ensures { (ds : List CDeclaration) → IfSome result (λ z. w.joined ds CBinary.Multiply (w.int x) (Got (w.int y)) ≡ Got (w.int z)) }
{
    x.checked_mul(y)
}

#[tactic(auto, unfolding(c_meaning::specs::Values::cell_eq))]
fn is_same(x: i64, y: i64) -> bool
    ensures { Got result ≡ w.cell_eq (c.Int x) (c.Int y) }
{
    x == y
}

/// An operator on two numbers.
fn operation(op: CBinary, x: i64, y: i64) -> Option<i64>
    ensures { (ds : List CDeclaration) → IfSome result (λ z. w.joined ds op (w.int x) (Got (w.int y)) ≡ Got (w.int z)) }
{
    match op {
        CBinary::Add => sum(x, y),
        CBinary::Subtract => difference(x, y),
        CBinary::Multiply => product(x, y),
        CBinary::Less => one_if(x < y),
        CBinary::AtMost => one_if(x <= y),
        CBinary::Greater => one_if(x > y),
        CBinary::AtLeast => one_if(x >= y),
        CBinary::Equal => one_if(is_same(x, y)),
        CBinary::NotEqual => one_if(!is_same(x, y)),
        _ => None,
    }
}
