//! Expressions and places: each struct that a cast names is declared above.
ghost use Rattle.std.specs.Prelude.{◌≡◌};
ghost use Rattle.c_conditions.specs.World.{seen};
ghost use Rattle.c_conditions.specs.ExprSteps as spec;
ghost use Rattle.c_conditions.specs.Steps.{Gives, each};
ghost use Rattle.c_tree.specs.expressions.View.{base_place};

use crate::checker::Checker;
use crate::fault::ConditionFault;
use c_tree::expr::{CBasePlace, CExpr, CExprNode, CPlace, CSelector};
use c_tree::operators::CCast;

impl<'a> Checker<'a> {
    fn cast(&mut self, to: &'a CCast) -> Result<(), ConditionFault>
        ensures { Gives result (seen self.new) (spec.cast_step to.now (seen self.old)) }
    {
        match to {
            CCast::Int | CCast::Word => self.pass(1),
            CCast::VoidPointer => self.pass(2),
            CCast::StructPointer(name) => {
                self.pointed_struct(name.as_slice())?;
                self.pass(1)
            }
        }
    }

    #[cycle(expr)]
    #[tactic(auto, unfolding(crate::specs::ExprSteps::expr_step))]
    pub fn expr(&mut self, e: &'a CExpr) -> Result<(), ConditionFault>
        ensures { Gives result (seen self.new) (spec.expr_step e.now (seen self.old)) }
    {
        match &e.node {
            CExprNode::Read(p) => self.variable(p.get()),
            CExprNode::Number(_) | CExprNode::WordNumber(_) => self.pass(4),
            CExprNode::Null => self.pass(1),
            CExprNode::Address(p) => {
                self.pass(2)?;
                self.variable(p.get())?;
                self.pass(1)
            }
            CExprNode::Unary(_, a) => {
                self.pass(2)?;
                self.expr(a.get())?;
                self.pass(1)
            }
            CExprNode::Binary(_, a, b) => {
                self.pass(1)?;
                self.expr(a.get())?;
                self.pass(1)?;
                self.expr(b.get())?;
                self.pass(1)
            }
            CExprNode::Cast(to, a) => {
                self.pass(2)?;
                self.cast(to)?;
                self.pass(1)?;
                self.expr(a.get())?;
                self.pass(1)
            }
        }
    }

    #[cycle(expr)]
    #[tactic(auto, using(crate::proofs::Parts::selected_step))]
    pub fn variable(&mut self, p: &'a CPlace) -> Result<(), ConditionFault>
        ensures { Gives result (seen self.new) (spec.place_step p.now (seen self.old)) }
    {
        self.base_place(&p.base)?;
        self.selectors(p.selectors.as_slice())
    }

    #[cycle(expr)]
    #[tactic(auto, unfolding(crate::specs::ExprSteps::place_step))]
    fn base_place(&mut self, base: &'a CBasePlace) -> Result<(), ConditionFault>
        ensures { Gives result (seen self.new) (spec.place_step (base_place base.now) (seen self.old)) }
    {
        match base {
            CBasePlace::Variable(_) => self.pass(1),
            CBasePlace::Pointee(a) => {
                self.pass(2)?;
                self.expr(a.get())?;
                self.pass(1)
            }
        }
    }

    #[cycle(expr)]
    #[tactic(auto, unfolding(crate::specs::Steps::each))]
    fn selectors(&mut self, list: &'a [CSelector]) -> Result<(), ConditionFault>
        ensures { Gives result (seen self.new) (each spec.selector_step list.now (seen self.old)) }
    {
        let mut rest = list;
        while let [first, after @ ..] = rest {
            self.selector(first)?;
            rest = after;
        }
        Ok(())
    }

    #[cycle(expr)]
    fn selector(&mut self, selector: &'a CSelector) -> Result<(), ConditionFault>
        ensures { Gives result (seen self.new) (spec.selector_step selector.now (seen self.old)) }
    {
        match selector {
            CSelector::Member(_) => self.pass(2),
            CSelector::Index(a) => {
                self.pass(1)?;
                self.expr(a)?;
                self.pass(1)
            }
        }
    }
}
