//! Statements: each goto leads to a label of its list or of one around it, and the labels of a
//! function differ.
ghost use Rattle.std.specs.Prelude.{◌≡◌};
ghost use Rattle.c_tree.specs.Tree.{body_of};
ghost use Rattle.c_conditions.specs.World.{seen};
ghost use Rattle.c_conditions.specs.StatementSteps as spec;
ghost use Rattle.c_conditions.specs.Steps.{Gives, each};

use crate::checker::Checker;
use crate::fault::ConditionFault;
use c_grammar::fault::CTextKind;
use c_tree::expr::{CExpr, CPlace};
use c_tree::statement::{CCallee, CStatement, CStatementNode};
use c_tree::types::CType;

impl<'a> Checker<'a> {
    fn assign(&mut self, p: &'a CPlace, a: &'a CExpr) -> Result<(), ConditionFault>
        ensures { Gives result (seen self.new) (spec.assign p.now a.now (seen self.old)) }
    {
        self.variable(p)?;
        self.pass(1)?;
        self.expr(a)?;
        self.pass(1)
    }

    fn into(&mut self, into: &'a Option<CPlace>) -> Result<(), ConditionFault>
        ensures { Gives result (seen self.new) (spec.into into.now (seen self.old)) }
    {
        match into {
            None => Ok(()),
            Some(p) => {
                self.variable(p)?;
                self.pass(1)
            }
        }
    }

    fn callee(&mut self, callee: &'a CCallee) -> Result<(), ConditionFault>
        ensures { Gives result (seen self.new) (spec.callee callee.now (seen self.old)) }
    {
        match callee {
            CCallee::Direct(_) => self.pass(1),
            CCallee::Indirect(a) => {
                self.pass(2)?;
                self.expr(a)?;
                self.pass(1)
            }
        }
    }

    /// A comma and an argument.
    fn next_argument(&mut self, a: &'a CExpr) -> Result<(), ConditionFault>
        ensures { Gives result (seen self.new) (spec.next_argument a.now (seen self.old)) }
    {
        self.pass(1)?;
        self.expr(a)
    }

    #[tactic(auto, unfolding(crate::specs::Steps::each))]
    fn more_arguments(&mut self, list: &'a [CExpr]) -> Result<(), ConditionFault>
        ensures { Gives result (seen self.new) (each spec.next_argument list.now (seen self.old)) }
    {
        let mut rest = list;
        while let [first, after @ ..] = rest {
            self.next_argument(first)?;
            rest = after;
        }
        Ok(())
    }

    fn arguments(&mut self, list: &'a [CExpr]) -> Result<(), ConditionFault>
        ensures { Gives result (seen self.new) (spec.arguments list.now (seen self.old)) }
    {
        match list {
            [] => Ok(()),
            [first, more @ ..] => {
                self.expr(first)?;
                self.more_arguments(more)
            }
        }
    }

    fn call(
        &mut self,
        into: &'a Option<CPlace>,
        callee: &'a CCallee,
        arguments: &'a [CExpr],
    ) -> Result<(), ConditionFault>
        ensures { Gives result (seen self.new) (spec.call into.now callee.now arguments.now (seen self.old)) }
    {
        self.into(into)?;
        self.callee(callee)?;
        self.pass(1)?;
        self.arguments(arguments)?;
        self.pass(2)
    }

    fn malloc(&mut self, p: &'a CPlace, of: &'a CType) -> Result<(), ConditionFault>
        ensures { Gives result (seen self.new) (spec.malloc p.now of.now (seen self.old)) }
    {
        self.variable(p)?;
        self.pass(5)?;
        self.type_of(of)?;
        self.pass(3)
    }

    fn get_char(&mut self, p: &'a CPlace) -> Result<(), ConditionFault>
        ensures { Gives result (seen self.new) (spec.get_char p.now (seen self.old)) }
    {
        self.variable(p)?;
        self.pass(5)
    }

    /// The argument of `free` or `putchar`.
    fn given(&mut self, a: &'a CExpr) -> Result<(), ConditionFault>
        ensures { Gives result (seen self.new) (spec.given a.now (seen self.old)) }
    {
        self.pass(2)?;
        self.expr(a)?;
        self.pass(2)
    }

    fn goto(&mut self, label: &'a [u8]) -> Result<(), ConditionFault>
        ensures { Gives result (seen self.new) (spec.goto label.now (seen self.old)) }
    {
        self.pass(1)?;
        self.demand(0 < self.reached.count(label), CTextKind::BadGoto)?;
        self.pass(2)
    }

    fn label(&mut self, name: &'a [u8]) -> Result<(), ConditionFault>
        ensures { Gives result (seen self.new) (spec.label name.now (seen self.old)) }
    {
        self.demand(!self.labels.has(name), CTextKind::DoubleName)?;
        self.labels.add(name)?;
        self.pass(3)
    }

    fn value(&mut self, value: &'a Option<CExpr>) -> Result<(), ConditionFault>
        ensures { Gives result (seen self.new) (spec.value value.now (seen self.old)) }
    {
        self.pass(1)?;
        if let Some(a) = value {
            self.expr(a)?;
        }
        self.pass(1)
    }

    fn raise_label(&mut self, s: &'a CStatement) -> Result<(), ConditionFault>
        ensures { Gives result (seen self.new) (spec.raise_label s.now (seen self.old)) }
    {
        if let CStatementNode::Label(name) = &s.node {
            self.reached.raise(name.as_slice())?;
        }
        Ok(())
    }

    fn lower_label(&mut self, s: &'a CStatement) -> Result<(), ConditionFault>
        ensures { Gives result (seen self.new) (spec.lower_label s.now (seen self.old)) }
    {
        if let CStatementNode::Label(name) = &s.node {
            self.reached.lower(name.as_slice())?;
        }
        Ok(())
    }

    /// From here on gotos may lead to the labels of the list.
    #[tactic(auto, unfolding(crate::specs::StatementSteps::enter))]
    fn enter(&mut self, list: &'a [CStatement]) -> Result<(), ConditionFault>
        ensures { Gives result (seen self.new) (spec.enter (body_of list.now) (seen self.old)) }
    {
        let mut rest = list;
        while let [first, after @ ..] = rest {
            self.raise_label(first)?;
            rest = after;
        }
        Ok(())
    }

    /// From here on the labels of the list are out of reach.
    #[tactic(auto, unfolding(crate::specs::StatementSteps::leave))]
    fn leave(&mut self, list: &'a [CStatement]) -> Result<(), ConditionFault>
        ensures { Gives result (seen self.new) (spec.leave (body_of list.now) (seen self.old)) }
    {
        let mut rest = list;
        while let [first, after @ ..] = rest {
            self.lower_label(first)?;
            rest = after;
        }
        Ok(())
    }

    /// The test of a statement, from its word to the opening brace.
    fn test(&mut self, test: &'a CExpr) -> Result<(), ConditionFault>
        ensures { Gives result (seen self.new) (spec.test test.now (seen self.old)) }
    {
        self.pass(2)?;
        self.expr(test)?;
        self.pass(2)
    }

    #[cycle(statement)]
    #[tactic(auto, unfolding(crate::specs::StatementSteps::statement))]
    fn statement(&mut self, s: &'a CStatement) -> Result<(), ConditionFault>
        ensures { Gives result (seen self.new) (spec.statement s.now (seen self.old)) }
    {
        match &s.node {
            CStatementNode::Assign(p, a) => self.assign(p, a),
            CStatementNode::Call(into, callee, arguments) => {
                self.call(into, callee, arguments.as_slice())
            }
            CStatementNode::Malloc(p, of) => self.malloc(p, of),
            CStatementNode::Free(a) | CStatementNode::PutChar(a) => self.given(a),
            CStatementNode::GetChar(p) => self.get_char(p),
            CStatementNode::If(test, body) | CStatementNode::While(test, body) => {
                self.test(test)?;
                self.block(body.as_slice())?;
                self.pass(1)
            }
            CStatementNode::IfElse(test, body, otherwise) => {
                self.test(test)?;
                self.block(body.as_slice())?;
                self.pass(3)?;
                self.block(otherwise.as_slice())?;
                self.pass(1)
            }
            CStatementNode::Goto(label) => self.goto(label.as_slice()),
            CStatementNode::Label(name) => self.label(name.as_slice()),
            CStatementNode::Return(value) => self.value(value),
        }
    }

    /// The statements between two braces.
    #[cycle(statement)]
    pub fn block(&mut self, list: &'a [CStatement]) -> Result<(), ConditionFault>
        ensures { Gives result (seen self.new) (spec.block (body_of list.now) (seen self.old)) }
    {
        self.enter(list)?;
        self.statements(list)?;
        self.leave(list)
    }

    #[cycle(statement)]
    #[tactic(auto, unfolding(crate::specs::StatementSteps::statements))]
    fn statements(&mut self, list: &'a [CStatement]) -> Result<(), ConditionFault>
        ensures { Gives result (seen self.new) (spec.statements (body_of list.now) (seen self.old)) }
    {
        let mut rest = list;
        while let [first, after @ ..] = rest {
            self.statement(first)?;
            rest = after;
        }
        Ok(())
    }
}
