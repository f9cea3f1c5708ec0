ghost use Rattle.std.specs.Prelude.{◌≡◌, map};
ghost use Rattle.pascal_tree.specs.Height.{capped};
ghost use Rattle.pascal_tree.specs.ExpressionHeights.{greatest};
ghost use Rattle.pascal_tree.specs.ExpressionHeights as expressions;
ghost use Rattle.pascal_tree.specs.StatementHeights as spec;

use super::above;
use super::expressions::{args_height, expr_height, place_height};
use crate::{Args, Arm, Place, Plain, Rest, Stmt};
use tree_lists::Boxed;

fn given_height(args: &Option<Args>) -> u32
    ensures { result ≡ capped (spec.given_height args.now) }
{
    match args {
        Some(args) => args_height(args),
        None => 0,
    }
}

fn place_heights(places: &[Place]) -> u32
    ensures { result ≡ capped (greatest (map expressions.place_height places.now)) }
{
    let mut most = 0;
    for place in places {
        most = most.max(place_height(place));
    }
    most
}

#[tactic(auto, using(crate::proofs::StatementNodes::stmt_open))]
#[cycle(statements)]
pub(super) fn stmt_height(stmt: &Stmt) -> u32
    ensures { result ≡ capped (spec.stmt_height stmt.now) }
{
    above(plain_height(&stmt.plain))
}

#[tactic(auto, using(crate::proofs::StatementNodes::plain_heights))]
#[cycle(statements)]
fn plain_height(plain: &Plain) -> u32
    ensures { result ≡ capped (spec.plain_height plain.now) }
{
    match plain {
        Plain::Nothing(_) | Plain::Goto { .. } => 0,
        Plain::Assign { target, value, .. } => place_height(target).max(expr_height(value.get())),
        Plain::Call { args, .. } => given_height(args),
        Plain::Compound { body, .. } => stmts_height(body.as_slice()),
        Plain::If {
            condition,
            yes,
            no,
            ..
        } => expr_height(condition.get()).max(stmt_height(yes.get()).max(else_height(no))),
        Plain::Case {
            selector,
            arms,
            rest,
            ..
        } => expr_height(selector.get()).max(arm_heights(arms.as_slice()).max(rest_part_height(
            rest,
        ))),
        Plain::While {
            condition,
            body,
            ..
        } => expr_height(condition.get()).max(stmt_height(body.get())),
        Plain::Repeat { body, until, .. } => stmts_height(body.as_slice()).max(expr_height(
            until.get(),
        )),
        Plain::For {
            first,
            last,
            body,
            ..
        } => expr_height(first.get()).max(expr_height(last.get()).max(stmt_height(body.get()))),
        Plain::With { places, body, .. } => {
            place_heights(places.as_slice()).max(stmt_height(body.get()))
        }
        Plain::Try { body, recover, .. } => {
            stmts_height(body.as_slice()).max(stmt_height(recover.get()))
        }
    }
}

#[cycle(statements)]
pub(super) fn stmts_height(stmts: &[Stmt]) -> u32
    ensures { result ≡ capped (spec.stmts_height stmts.now) }
{
    let mut most = 0;
    for stmt in stmts {
        most = most.max(stmt_height(stmt));
    }
    most
}

#[cycle(statements)]
fn else_height(other: &Option<Boxed<Stmt>>) -> u32
    ensures { result ≡ capped (spec.else_height other.now) }
{
    match other {
        Some(stmt) => stmt_height(stmt.get()),
        None => 0,
    }
}

#[tactic(auto, using(crate::proofs::StatementNodes::arm_open))]
#[cycle(statements)]
fn arm_height(arm: &Arm) -> u32
    ensures { result ≡ capped (spec.arm_height arm.now) }
{
    stmt_height(&arm.body)
}

#[cycle(statements)]
fn arm_heights(arms: &[Arm]) -> u32
    ensures { result ≡ capped (greatest (map spec.arm_height arms.now)) }
{
    let mut most = 0;
    for arm in arms {
        most = most.max(arm_height(arm));
    }
    most
}

#[cycle(statements)]
fn rest_part_height(rest: &Option<Rest>) -> u32
    ensures { result ≡ capped (spec.rest_part_height rest.now) }
{
    match rest {
        Some(rest) => rest_height(rest),
        None => 0,
    }
}

#[tactic(auto, using(crate::proofs::StatementNodes::rest_open))]
#[cycle(statements)]
fn rest_height(rest: &Rest) -> u32
    ensures { result ≡ capped (spec.rest_height rest.now) }
{
    stmts_height(rest.body.as_slice())
}
