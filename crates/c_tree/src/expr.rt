//! Expressions and places.
ghost use Rattle.std.specs.Prelude.{◌≡◌, IfOk};
ghost use Rattle.c_tree.specs.Tree.{Read, Number, WordNumber, Null, Address, Unary, Binary, Cast, Variable, Pointee, Member, Index};
ghost use Rattle.c_tree.specs.expressions.View.{select};

use crate::Name;
use crate::operators::{CBinary, CCast, CUnary};
use std::alloc::{AllocError, Global};
use std::marker::Model;
use tree_lists::{Boxed, Items};

/// A name, and `(* pointer)`.
#[cycle(expr)]
#[derive(Drop)]
pub enum CBasePlace {
    Variable(Name),
    Pointee(Boxed<CExpr>),
}

/// `.member` and `[index]`.
#[cycle(expr)]
#[derive(Drop)]
pub enum CSelector {
    Member(Name),
    Index(CExpr),
}

/// What a value is read from and written to: what selectors, one after another, select.
#[cycle(expr)]
#[derive(Drop)]
pub struct CPlace {
    pub base: CBasePlace,
    pub selectors: Items<CSelector>,
}

#[cycle(expr)]
#[derive(Drop)]
pub struct CExpr {
    pub node: CExprNode,
}

/// A place that is read, `INT64_C(n)`, `UINT64_C(n)`, `NULL`, `(& place)`, an operator before one
/// operand and between two, and a cast.
#[cycle(expr)]
#[derive(Drop)]
pub enum CExprNode {
    Read(Boxed<CPlace>),
    Number(u64),
    WordNumber(u64),
    Null,
    Address(Boxed<CPlace>),
    Unary(CUnary, Boxed<CExpr>),
    Binary(CBinary, Boxed<CExpr>, Boxed<CExpr>),
    Cast(CCast, Boxed<CExpr>),
}

impl Model for CPlace {
    ghost use Rattle.c_tree.specs.expressions.Tree.{Place, place_size};
    ghost use Rattle.c_tree.specs.expressions.Code.{coded_place};

    ghost Value = { Place };

    ghost coded = { coded_place };

    ghost use Rattle.c_tree.specs.expressions.View.{base_place, selected};

    ghost view = { λ a. selected (base_place a.base) a.selectors };

    ghost size = { place_size };

    ghost use Rattle.c_tree.specs.expressions.Falls.{place_falls};

    ghost size_decreases = { λ a h. place_falls a };
}

impl Model for CExpr {
    ghost use Rattle.c_tree.specs.expressions.Tree.{Expr, expr_size};
    ghost use Rattle.c_tree.specs.expressions.Code.{coded_expr};

    ghost Value = { Expr };

    ghost coded = { coded_expr };

    ghost use Rattle.c_tree.specs.expressions.View.{expr_of};

    ghost view = { λ a. expr_of a.node };

    ghost size = { expr_size };

    ghost use Rattle.std.proofs.Common.{arith};

    ghost size_decreases = { λ a h. Prim.grind arith };
}

impl CPlace {
    pub fn variable(alloc: Global, name: Name) -> CPlace
        ensures { result ≡ Variable name }
    {
        CPlace {
            base: CBasePlace::Variable(name),
            selectors: Items::new(alloc),
        }
    }

    pub fn pointee(alloc: Global, pointer: CExpr) -> Result<CPlace, AllocError>
        ensures { IfOk result (λ place. place ≡ Pointee pointer) }
    {
        Ok(CPlace {
            base: CBasePlace::Pointee(Boxed::new(alloc, pointer)?),
            selectors: Items::new(alloc),
        })
    }

    #[tactic(auto, using(crate::specs::expressions::View::selected_more))]
    fn selected(place: CPlace, selector: CSelector) -> Result<CPlace, AllocError>
        ensures { IfOk result (λ made. made ≡ select place selector) }
    {
        let CPlace {
            base,
            mut selectors,
        } = place;
        selectors.push(selector)?;
        Ok(CPlace { base, selectors })
    }

    pub fn member(place: CPlace, name: Name) -> Result<CPlace, AllocError>
        ensures { IfOk result (λ made. made ≡ Member place name) }
    {
        CPlace::selected(place, CSelector::Member(name))
    }

    pub fn index(place: CPlace, index: CExpr) -> Result<CPlace, AllocError>
        ensures { IfOk result (λ made. made ≡ Index place index) }
    {
        CPlace::selected(place, CSelector::Index(index))
    }
}

impl CExpr {
    pub fn read(alloc: Global, place: CPlace) -> Result<CExpr, AllocError>
        ensures { IfOk result (λ made. made ≡ Read place) }
    {
        Ok(CExpr {
            node: CExprNode::Read(Boxed::new(alloc, place)?),
        })
    }

    /// `INT64_C(value)`.
    pub fn number(value: u64) -> CExpr
        ensures { result ≡ Number value }
    {
        CExpr {
            node: CExprNode::Number(value),
        }
    }

    /// `UINT64_C(value)`.
    pub fn word_number(value: u64) -> CExpr
        ensures { result ≡ WordNumber value }
    {
        CExpr {
            node: CExprNode::WordNumber(value),
        }
    }

    pub fn null() -> CExpr
        ensures { result ≡ Null }
    {
        CExpr {
            node: CExprNode::Null,
        }
    }

    pub fn address(alloc: Global, place: CPlace) -> Result<CExpr, AllocError>
        ensures { IfOk result (λ made. made ≡ Address place) }
    {
        Ok(CExpr {
            node: CExprNode::Address(Boxed::new(alloc, place)?),
        })
    }

    pub fn unary(alloc: Global, operator: CUnary, operand: CExpr) -> Result<CExpr, AllocError>
        ensures { IfOk result (λ made. made ≡ Unary operator operand) }
    {
        Ok(CExpr {
            node: CExprNode::Unary(operator, Boxed::new(alloc, operand)?),
        })
    }

    pub fn binary(
        alloc: Global,
        operator: CBinary,
        left: CExpr,
        right: CExpr,
    ) -> Result<CExpr, AllocError>
        ensures { IfOk result (λ made. made ≡ Binary operator left right) }
    {
        let left = Boxed::new(alloc, left)?;
        let right = Boxed::new(alloc, right)?;
        Ok(CExpr {
            node: CExprNode::Binary(operator, left, right),
        })
    }

    pub fn cast(alloc: Global, to: CCast, operand: CExpr) -> Result<CExpr, AllocError>
        ensures { IfOk result (λ made. made ≡ Cast to operand) }
    {
        Ok(CExpr {
            node: CExprNode::Cast(to, Boxed::new(alloc, operand)?),
        })
    }
}
