//! Statements.
ghost use Rattle.std.specs.Prelude.{◌≡◌};
ghost use Rattle.c_tree.specs.Tree.{Assign, Call, Malloc, Free, GetChar, PutChar, If, IfElse, While, Goto, Label, Return, body_of};

use crate::Name;
use crate::expr::{CExpr, CPlace};
use crate::types::CType;
use std::marker::Model;
use tree_lists::Items;

/// What a call calls: a name, or `(* pointer)`.
#[derive(Drop)]
pub enum CCallee {
    Direct(Name),
    Indirect(CExpr),
}

#[cycle(statement)]
#[derive(Drop)]
pub struct CStatement {
    pub node: CStatementNode,
}

/// `Malloc(place, of)` is `place = malloc(sizeof(of));`, `GetChar(place)` is `place = getchar();`,
/// and `Label(name)` is `name: ;`. Contracts see the statements between the braces of an `if` or a
/// `while` as the `body_of` their list.
#[cycle(statement)]
#[derive(Drop)]
pub enum CStatementNode {
    Assign(CPlace, CExpr),
    Call(Option<CPlace>, CCallee, Items<CExpr>),
    Malloc(CPlace, CType),
    Free(CExpr),
    GetChar(CPlace),
    PutChar(CExpr),
    If(CExpr, Items<CStatement>),
    IfElse(CExpr, Items<CStatement>, Items<CStatement>),
    While(CExpr, Items<CStatement>),
    Goto(Name),
    Label(Name),
    Return(Option<CExpr>),
}

impl Model for CStatement {
    ghost use Rattle.c_tree.specs.statements.Tree.{Statement, statement_size};
    ghost use Rattle.c_tree.specs.statements.Code.{coded_statement};

    ghost Value = { Statement };

    ghost coded = { coded_statement };

    ghost use Rattle.c_tree.specs.statements.View.{statement_of};

    ghost view = { λ a. statement_of a.node };

    ghost size = { statement_size };

    ghost use Rattle.c_tree.specs.statements.Falls.{statement_falls};

    ghost size_decreases = { λ a h. statement_falls a.node };
}

impl CStatement {
    pub fn assign(place: CPlace, value: CExpr) -> CStatement
        ensures { result ≡ Assign place value }
    {
        CStatement {
            node: CStatementNode::Assign(place, value),
        }
    }

    pub fn call(into: Option<CPlace>, callee: CCallee, arguments: Items<CExpr>) -> CStatement
        ensures { result ≡ Call into callee arguments }
    {
        CStatement {
            node: CStatementNode::Call(into, callee, arguments),
        }
    }

    pub fn malloc(into: CPlace, of: CType) -> CStatement
        ensures { result ≡ Malloc into of }
    {
        CStatement {
            node: CStatementNode::Malloc(into, of),
        }
    }

    pub fn free(pointer: CExpr) -> CStatement
        ensures { result ≡ Free pointer }
    {
        CStatement {
            node: CStatementNode::Free(pointer),
        }
    }

    pub fn get_char(into: CPlace) -> CStatement
        ensures { result ≡ GetChar into }
    {
        CStatement {
            node: CStatementNode::GetChar(into),
        }
    }

    pub fn put_char(value: CExpr) -> CStatement
        ensures { result ≡ PutChar value }
    {
        CStatement {
            node: CStatementNode::PutChar(value),
        }
    }

    pub fn if_then(test: CExpr, body: Items<CStatement>) -> CStatement
        ensures { result ≡ If test (body_of body) }
    {
        CStatement {
            node: CStatementNode::If(test, body),
        }
    }

    pub fn if_else(test: CExpr, body: Items<CStatement>, otherwise: Items<CStatement>) -> CStatement
        ensures { result ≡ IfElse test (body_of body) (body_of otherwise) }
    {
        CStatement {
            node: CStatementNode::IfElse(test, body, otherwise),
        }
    }

    pub fn while_do(test: CExpr, body: Items<CStatement>) -> CStatement
        ensures { result ≡ While test (body_of body) }
    {
        CStatement {
            node: CStatementNode::While(test, body),
        }
    }

    pub fn goto(label: Name) -> CStatement
        ensures { result ≡ Goto label }
    {
        CStatement {
            node: CStatementNode::Goto(label),
        }
    }

    pub fn label(name: Name) -> CStatement
        ensures { result ≡ Label name }
    {
        CStatement {
            node: CStatementNode::Label(name),
        }
    }

    pub fn return_of(value: Option<CExpr>) -> CStatement
        ensures { result ≡ Return value }
    {
        CStatement {
            node: CStatementNode::Return(value),
        }
    }
}
