ghost use Rattle.std.specs.Prelude.{◌≡◌, map};
ghost use Rattle.pascal_tree.specs.Height.{capped};
ghost use Rattle.pascal_tree.specs.ExpressionHeights as spec;
ghost use Rattle.pascal_tree.specs.ExpressionHeights.{greatest};

use super::above;
use crate::{
    AddedTerm, Arg, Args, Elem, Expr, Factor, MultipliedFactor, Place, Relation, Selector, Simple,
    Term,
};
use tree_lists::Boxed;

#[tactic(auto, using(crate::proofs::ExpressionNodes::expr_open))]
#[cycle(expressions)]
pub(super) fn expr_height(expr: &Expr) -> u32
    ensures { result ≡ capped (spec.expr_height expr.now) }
{
    let left = simple_height(&expr.left);
    let right = right_height(&expr.right);
    above(left.max(right))
}

#[cycle(expressions)]
fn right_height(right: &Option<Boxed<(Relation, Simple)>>) -> u32
    ensures { result ≡ capped (spec.right_height right.now) }
{
    match right {
        Some(compared) => {
            let (_, simple) = compared.get();
            simple_height(simple)
        }
        None => 0,
    }
}

#[tactic(auto, using(crate::proofs::ExpressionNodes::simple_open))]
#[cycle(expressions)]
fn simple_height(simple: &Simple) -> u32
    ensures { result ≡ capped (spec.simple_height simple.now) }
{
    let first = term_height(&simple.first);
    first.max(added_heights(simple.rest.as_slice()))
}

#[tactic(auto, using(crate::proofs::ExpressionNodes::added_open))]
#[cycle(expressions)]
fn added_height(added: &AddedTerm) -> u32
    ensures { result ≡ capped (spec.added_height added.now) }
{
    term_height(&added.term)
}

#[cycle(expressions)]
fn added_heights(terms: &[AddedTerm]) -> u32
    ensures { result ≡ capped (greatest (map spec.added_height terms.now)) }
{
    let mut most = 0;
    for added in terms {
        most = most.max(added_height(added));
    }
    most
}

#[tactic(auto, using(crate::proofs::ExpressionNodes::term_open))]
#[cycle(expressions)]
fn term_height(term: &Term) -> u32
    ensures { result ≡ capped (spec.term_height term.now) }
{
    let first = factor_height(&term.first);
    first.max(multiplied_heights(term.rest.as_slice()))
}

#[tactic(auto, using(crate::proofs::ExpressionNodes::multiplied_open))]
#[cycle(expressions)]
fn multiplied_height(multiplied: &MultipliedFactor) -> u32
    ensures { result ≡ capped (spec.multiplied_height multiplied.now) }
{
    factor_height(&multiplied.factor)
}

#[cycle(expressions)]
fn multiplied_heights(factors: &[MultipliedFactor]) -> u32
    ensures { result ≡ capped (greatest (map spec.multiplied_height factors.now)) }
{
    let mut most = 0;
    for multiplied in factors {
        most = most.max(multiplied_height(multiplied));
    }
    most
}

#[tactic(auto, using(crate::proofs::ExpressionNodes::factor_heights))]
#[cycle(expressions)]
fn factor_height(factor: &Factor) -> u32
    ensures { result ≡ capped (spec.factor_height factor.now) }
{
    match factor {
        Factor::Number { .. } | Factor::Text { .. } | Factor::Nil(_) => 1,
        Factor::Place(place) => above(place_height(place)),
        Factor::Call { args, .. } => above(args_height(args)),
        Factor::Group { inner, .. } => above(expr_height(inner.get())),
        Factor::Not { operand, .. } => above(factor_height(operand.get())),
        Factor::Set { elements, .. } => above(elem_heights(elements.as_slice())),
    }
}

#[tactic(auto, using(crate::proofs::ExpressionNodes::elem_open))]
#[cycle(expressions)]
fn elem_height(elem: &Elem) -> u32
    ensures { result ≡ capped (spec.elem_height elem.now) }
{
    let first = expr_height(&elem.first);
    first.max(last_height(&elem.last))
}

#[cycle(expressions)]
fn last_height(last: &Option<Boxed<Expr>>) -> u32
    ensures { result ≡ capped (spec.last_height last.now) }
{
    match last {
        Some(expr) => expr_height(expr.get()),
        None => 0,
    }
}

#[cycle(expressions)]
fn elem_heights(elems: &[Elem]) -> u32
    ensures { result ≡ capped (greatest (map spec.elem_height elems.now)) }
{
    let mut most = 0;
    for elem in elems {
        most = most.max(elem_height(elem));
    }
    most
}

#[tactic(auto, using(crate::proofs::ExpressionNodes::place_open))]
#[cycle(expressions)]
pub(super) fn place_height(place: &Place) -> u32
    ensures { result ≡ capped (spec.place_height place.now) }
{
    selector_heights(place.selectors.as_slice())
}

#[tactic(auto, using(crate::proofs::ExpressionNodes::selector_heights))]
#[cycle(expressions)]
fn selector_height(selector: &Selector) -> u32
    ensures { result ≡ capped (spec.selector_height selector.now) }
{
    match selector {
        Selector::Index { indexes, .. } => expr_heights(indexes.as_slice()),
        Selector::Field { .. } | Selector::Follow(_) => 0,
    }
}

#[cycle(expressions)]
fn selector_heights(selectors: &[Selector]) -> u32
    ensures { result ≡ capped (greatest (map spec.selector_height selectors.now)) }
{
    let mut most = 0;
    for selector in selectors {
        most = most.max(selector_height(selector));
    }
    most
}

#[cycle(expressions)]
fn expr_heights(exprs: &[Expr]) -> u32
    ensures { result ≡ capped (greatest (map spec.expr_height exprs.now)) }
{
    let mut most = 0;
    for expr in exprs {
        most = most.max(expr_height(expr));
    }
    most
}

#[tactic(auto, using(crate::proofs::ExpressionNodes::args_open))]
#[cycle(expressions)]
pub(super) fn args_height(args: &Args) -> u32
    ensures { result ≡ capped (spec.args_height args.now) }
{
    arg_heights(args.list.as_slice())
}

#[tactic(auto, using(crate::proofs::ExpressionNodes::arg_heights))]
#[cycle(expressions)]
fn arg_height(arg: &Arg) -> u32
    ensures { result ≡ capped (spec.arg_height arg.now) }
{
    match arg {
        Arg::Value {
            value,
            width,
            decimals,
            ..
        } => expr_height(value).max(last_height(width).max(last_height(decimals))),
        Arg::Program(_) => 0,
    }
}

#[cycle(expressions)]
fn arg_heights(args: &[Arg]) -> u32
    ensures { result ≡ capped (greatest (map spec.arg_height args.now)) }
{
    let mut most = 0;
    for arg in args {
        most = most.max(arg_height(arg));
    }
    most
}
