//! Values of expressions, and the places that they name.
ghost use Rattle.std.specs.Prelude.{◌≡◌};
ghost use Rattle.std.specs.Option.{option_map, option_copied};
ghost use Rattle.c_meaning.specs.Cells as c;
ghost use Rattle.c_meaning.specs.Cells.{Leaf};
ghost use Rattle.c_meaning.specs.Types.{AnyPointer};
ghost use Rattle.c_tree.specs.Tree as t;
ghost use Rattle.c_tree.specs.expressions.View.{base_place};
ghost use Rattle.c_meaning.specs.Evaluate as m;
ghost use Rattle.c_meaning.specs.Values as w;
ghost use Rattle.c_evaluation.specs.Values.{value_of as worth};
ghost use Rattle.c_evaluation.specs.Scopes.{view_at, site_of, HasRoom};
ghost use Rattle.c_cells.specs.Halts.{Tells};
ghost use Rattle.c_evaluation.specs.Evaluations.{number_value, onto_member, onto_element, onto_index, onto_selector, onto_selectors, decision, deciding, name_in};

use crate::cast::cast;
use crate::operate::{binary, is_zero, unary};
use crate::place::{Site, element, member, onward};
use crate::read::{address, follow, load, name_value, variable};
use crate::scope::Scope;
use crate::types::ValueType;
use crate::value::{Value, as_int};
use c_cells::cell::{Cell, CellNode};
use c_cells::halt::Halt;
use c_tree::Name;
use c_tree::expr::{CBasePlace, CExpr, CExprNode, CPlace, CSelector};
use c_tree::operators::{CBinary, CCast, CUnary};

/// A number in the text. None at or above 2^63 stands in a text of the subset.
#[tactic(auto, unfolding(c_meaning::specs::Values::int))]
fn number<'a>(n: u64) -> Result<Value<'a>, Halt>
    ensures { Tells worth result (number_value n) }
{
    if n > i64::MAX as u64 {
        return Err(Halt::Memory);
    }
    Ok(Value::Int(n as i64))
}

/// An operator on a value.
fn operate<'a>(op: CUnary, x: &Value) -> Result<Value<'a>, Halt>
    ensures { Tells worth result (w.unary op (worth x.now)) }
{
    match unary(op, x) {
        Ok(value) => Ok(value),
        Err(kind) => Err(Halt::Stuck(kind)),
    }
}

/// A step to a member.
#[tactic(auto, using(crate::proofs::Evaluations::no_member, crate::proofs::Evaluations::to_member))]
fn step_to_member<'a>(scope: &Scope<'a>, site: Site<'a>, name: &Name) -> Result<Site<'a>, Halt>
    ensures { Tells site_of result (onto_member (view_at scope.now) name.now (site_of site.entry)) }
{
    match member(scope, name, site.of) {
        Ok(step) => Ok(onward(site, step)?),
        Err(kind) => Err(Halt::Stuck(kind)),
    }
}

/// A step to an element.
#[tactic(auto, using(crate::proofs::Evaluations::no_number, crate::proofs::Evaluations::no_element, crate::proofs::Evaluations::to_element))]
fn step_to_element<'a>(site: Site<'a>, x: &Value) -> Result<Site<'a>, Halt>
    ensures { Tells site_of result (onto_element (site_of site.entry) (worth x.now)) }
{
    match as_int(x) {
        Ok(z) => match element(z, site.of) {
            Ok(step) => Ok(onward(site, step)?),
            Err(kind) => Err(Halt::Stuck(kind)),
        },
        Err(kind) => Err(Halt::Stuck(kind)),
    }
}

/// An operator on two values.
#[tactic(auto, unfolding(c_meaning::specs::States::view))]
fn combine<'a>(scope: &Scope<'a>, op: CBinary, x: &Value, y: &Value) -> Result<Value<'a>, Halt>
    ensures { Tells worth result (w.binary (view_at scope.now).declared op (worth x.now) (worth y.now)) }
{
    match binary(scope, op, x, y) {
        Ok(value) => Ok(value),
        Err(kind) => Err(Halt::Stuck(kind)),
    }
}

/// The place that a name names.
#[tactic(auto, unfolding(c_meaning::specs::Evaluate::place))]
fn variable_place<'a>(scope: &Scope<'a>, name: &'a Name) -> Result<Site<'a>, Halt>
    requires { HasRoom scope.now }
    ensures { Tells site_of result (m.place (view_at scope.now) (t.Variable name.now)) }
{
    match variable(scope, name) {
        Ok(site) => Ok(site),
        Err(kind) => Err(Halt::Stuck(kind)),
    }
}

/// The name, where the place is one.
#[tactic(auto, using(crate::proofs::Selected::no_name))]
pub fn single_name(place: &CPlace) -> Option<&Name>
    ensures { option_copied result ≡ name_in place.now }
{
    if !place.selectors.is_empty() {
        return None;
    }
    match &place.base {
        CBasePlace::Variable(name) => Some(name),
        CBasePlace::Pointee(_) => None,
    }
}

/// The value of an expression.
#[cycle(evaluate)]
pub fn value_of<'a>(scope: &Scope<'a>, e: &'a CExpr) -> Result<Value<'a>, Halt>
    requires { HasRoom scope.now }
    ensures { Tells worth result (m.value (view_at scope.now) e.now) }
{
    match &e.node {
        CExprNode::Read(place) => read(scope, place.get()),
        CExprNode::Number(n) => number(*n),
        CExprNode::WordNumber(n) => Ok(Value::Word(*n)),
        CExprNode::Null => Ok(null()),
        CExprNode::Address(place) => address_of(scope, place.get()),
        CExprNode::Unary(op, a) => unary_of(scope, *op, a.get()),
        CExprNode::Binary(op, a, b) => binary_of(scope, *op, a.get(), b.get()),
        CExprNode::Cast(to, a) => cast_of(scope, to, a.get()),
    }
}

#[cycle(evaluate)]
fn read<'a>(scope: &Scope<'a>, place: &'a CPlace) -> Result<Value<'a>, Halt>
    requires { HasRoom scope.now }
    ensures { Tells worth result (m.value (view_at scope.now) (t.Read place.now)) }
{
    match single_name(place) {
        Some(name) => name_value(scope, name),
        None => {
            let site = place_of(scope, place)?;
            load(scope, &site)
        }
    }
}

#[cycle(evaluate)]
fn address_of<'a>(scope: &Scope<'a>, place: &'a CPlace) -> Result<Value<'a>, Halt>
    requires { HasRoom scope.now }
    ensures { Tells worth result (m.value (view_at scope.now) (t.Address place.now)) }
{
    let site = place_of(scope, place)?;
    address(scope, site)
}

#[cycle(evaluate)]
fn unary_of<'a>(scope: &Scope<'a>, op: CUnary, a: &'a CExpr) -> Result<Value<'a>, Halt>
    requires { HasRoom scope.now }
    ensures { Tells worth result (m.value (view_at scope.now) (t.Unary op a.now)) }
{
    let x = value_of(scope, a)?;
    operate(op, &x)
}

#[cycle(evaluate)]
fn cast_of<'a>(scope: &Scope<'a>, to: &'a CCast, a: &'a CExpr) -> Result<Value<'a>, Halt>
    requires { HasRoom scope.now }
    ensures { Tells worth result (m.value (view_at scope.now) (t.Cast to.now a.now)) }
{
    let x = value_of(scope, a)?;
    cast(scope, to, &x)
}

/// `&&` and `||` evaluate their second operand only where the first does not decide.
#[cycle(evaluate)]
fn binary_of<'a>(
    scope: &Scope<'a>,
    op: CBinary,
    a: &'a CExpr,
    b: &'a CExpr,
) -> Result<Value<'a>, Halt>
    requires { HasRoom scope.now }
    ensures { Tells worth result (m.value (view_at scope.now) (t.Binary op a.now b.now)) }
{
    let x = value_of(scope, a)?;
    if let Some(value) = decided(op, &x)? {
        return Ok(value);
    }
    let y = value_of(scope, b)?;
    combine(scope, op, &x, &y)
}

/// The place that a place expression names.
#[cycle(evaluate)]
pub fn place_of<'a>(scope: &Scope<'a>, place: &'a CPlace) -> Result<Site<'a>, Halt>
    requires { HasRoom scope.now }
    ensures { Tells site_of result (m.place (view_at scope.now) place.now) }
{
    let site = base_site(scope, &place.base)?;
    selected_site(scope, site, place.selectors.as_slice())
}

#[cycle(evaluate)]
fn base_site<'a>(scope: &Scope<'a>, base: &'a CBasePlace) -> Result<Site<'a>, Halt>
    requires { HasRoom scope.now }
    ensures { Tells site_of result (m.place (view_at scope.now) (base_place base.now)) }
{
    match base {
        CBasePlace::Variable(name) => variable_place(scope, name),
        CBasePlace::Pointee(a) => pointee_of(scope, a.get()),
    }
}

/// What selectors select of a place.
#[cycle(evaluate)]
fn selected_site<'a>(
    scope: &Scope<'a>,
    site: Site<'a>,
    list: &'a [CSelector],
) -> Result<Site<'a>, Halt>
    requires { HasRoom scope.now }
    ensures { Tells site_of result (onto_selectors (view_at scope.now) list.now (site_of site.entry)) }
{
    let mut site = site;
    let mut rest = list;
    while let [first, after @ ..] = rest {
        site = step_to(scope, site, first)?;
        rest = after;
    }
    Ok(site)
}

#[cycle(evaluate)]
fn step_to<'a>(scope: &Scope<'a>, site: Site<'a>, selector: &'a CSelector) -> Result<Site<'a>, Halt>
    requires { HasRoom scope.now }
    ensures { Tells site_of result (onto_selector (view_at scope.now) selector.now (site_of site.entry)) }
{
    match selector {
        CSelector::Member(name) => step_to_member(scope, site, name),
        CSelector::Index(a) => index_of(scope, site, a),
    }
}

#[cycle(evaluate)]
fn pointee_of<'a>(scope: &Scope<'a>, a: &'a CExpr) -> Result<Site<'a>, Halt>
    requires { HasRoom scope.now }
    ensures { Tells site_of result (m.place (view_at scope.now) (t.Pointee a.now)) }
{
    let x = value_of(scope, a)?;
    follow(scope, &x)
}

#[cycle(evaluate)]
fn index_of<'a>(scope: &Scope<'a>, site: Site<'a>, a: &'a CExpr) -> Result<Site<'a>, Halt>
    requires { HasRoom scope.now }
    ensures { Tells site_of result (onto_index (view_at scope.now) a.now (site_of site.entry)) }
{
    let x = value_of(scope, a)?;
    step_to_element(site, &x)
}

fn null<'a>() -> Value<'a>
    ensures { worth result ≡ w.Typed AnyPointer (Leaf c.Null) }
{
    Value::Scalar(
        ValueType::AnyPointer,
        Cell {
            node: CellNode::Null,
        },
    )
}

/// What `&&` and `||` give where the first operand decides.
#[tactic(auto, using(crate::proofs::Evaluations::and_none, crate::proofs::Evaluations::and_some, crate::proofs::Evaluations::or_none, crate::proofs::Evaluations::or_some))]
fn decided<'a>(op: CBinary, x: &Value) -> Result<Option<Value<'a>>, Halt>
    ensures { Tells (option_map worth) result (decision op (worth x.now)) }
{
    match op {
        CBinary::And => match as_int(x) {
            Ok(z) => Ok(if_zero(z, true, 0)),
            Err(kind) => Err(Halt::Stuck(kind)),
        },
        CBinary::Or => match as_int(x) {
            Ok(z) => Ok(if_zero(z, false, 1)),
            Err(kind) => Err(Halt::Stuck(kind)),
        },
        _ => Ok(None),
    }
}

/// The value, where it matters so whether the number is 0.
fn if_zero<'a>(z: i64, matters: bool, value: i64) -> Option<Value<'a>>
    ensures { option_map worth result ≡ deciding (w.is_zero z) matters value }
{
    if is_zero(z) == matters {
        Some(Value::Int(value))
    } else {
        None
    }
}
