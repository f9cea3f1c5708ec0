//! Variables, functions and programs.
ghost use Rattle.std.specs.Prelude.{◌≡◌, OnOk, IfErr};
ghost use Rattle.c_grammar.specs.Demands.{program_demands};
ghost use Rattle.c_conditions.specs.Conditions.{HoldAllButLevels, IsFailure};
ghost use Rattle.c_tree.specs.Tree.{body_of};
ghost use Rattle.c_conditions.specs.World.{seen};
ghost use Rattle.c_conditions.specs.ProgramSteps as spec;
ghost use Rattle.c_conditions.specs.Steps.{Gives, each};

use crate::checker::Checker;
use crate::fault::ConditionFault;
use c_grammar::fault::CTextKind;
use c_tree::program::{CFunction, CMain, CProgram, CPrototype, CVariable};
use c_tree::statement::CStatement;
use c_tree::types::CType;
use std::alloc::Global;

impl<'a> Checker<'a> {
    /// The name of a global or a function.
    fn outer_name(&self, name: &'a [u8]) -> Result<(), ConditionFault>
        ensures { Gives result (seen self.now) (spec.outer_name name.now (seen self.now)) }
    {
        self.demand(!self.names.has(name), CTextKind::DoubleName)
    }

    fn variable_line(&mut self, variable: &'a CVariable) -> Result<(), ConditionFault>
        ensures { Gives result (seen self.new) (spec.variable variable.now (seen self.old)) }
    {
        self.type_of(&variable.of)?;
        self.inner_name(variable.name.as_slice())
    }

    /// A comma and a parameter.
    fn next_parameter(&mut self, variable: &'a CVariable) -> Result<(), ConditionFault>
        ensures { Gives result (seen self.new) (spec.next_parameter variable.now (seen self.old)) }
    {
        self.pass(1)?;
        self.variable_line(variable)
    }

    #[tactic(auto, unfolding(crate::specs::Steps::each))]
    fn more_parameters(&mut self, list: &'a [CVariable]) -> Result<(), ConditionFault>
        ensures { Gives result (seen self.new) (each spec.next_parameter list.now (seen self.old)) }
    {
        let mut rest = list;
        while let [first, after @ ..] = rest {
            self.next_parameter(first)?;
            rest = after;
        }
        Ok(())
    }

    fn parameters(&mut self, list: &'a [CVariable]) -> Result<(), ConditionFault>
        ensures { Gives result (seen self.new) (spec.parameters list.now (seen self.old)) }
    {
        match list {
            [] => self.pass(1),
            [first, more @ ..] => {
                self.variable_line(first)?;
                self.more_parameters(more)
            }
        }
    }

    fn local(&mut self, variable: &'a CVariable) -> Result<(), ConditionFault>
        ensures { Gives result (seen self.new) (spec.local variable.now (seen self.old)) }
    {
        self.variable_line(variable)?;
        self.pass(1)
    }

    #[tactic(auto, unfolding(crate::specs::Steps::each))]
    fn locals(&mut self, list: &'a [CVariable]) -> Result<(), ConditionFault>
        ensures { Gives result (seen self.new) (each spec.local list.now (seen self.old)) }
    {
        let mut rest = list;
        while let [first, after @ ..] = rest {
            self.local(first)?;
            rest = after;
        }
        Ok(())
    }

    /// The locals and statements between the braces of a function.
    fn inner_block(
        &mut self,
        locals: &'a [CVariable],
        body: &'a [CStatement],
    ) -> Result<(), ConditionFault>
        ensures { Gives result (seen self.new) (spec.inner_block locals.now (body_of body.now) (seen self.old)) }
    {
        self.locals(locals)?;
        self.block(body)
    }

    fn global(&mut self, variable: &'a CVariable) -> Result<(), ConditionFault>
        ensures { Gives result (seen self.new) (spec.global variable.now (seen self.old)) }
    {
        self.type_of(&variable.of)?;
        self.outer_name(variable.name.as_slice())?;
        self.names.add(variable.name.as_slice())?;
        self.pass(2)
    }

    #[tactic(auto, unfolding(crate::specs::Steps::each))]
    fn globals(&mut self, list: &'a [CVariable]) -> Result<(), ConditionFault>
        ensures { Gives result (seen self.new) (each spec.global list.now (seen self.old)) }
    {
        let mut rest = list;
        while let [first, after @ ..] = rest {
            self.global(first)?;
            rest = after;
        }
        Ok(())
    }

    fn returned_type(&mut self, of: &'a Option<CType>) -> Result<(), ConditionFault>
        ensures { Gives result (seen self.new) (spec.returned_type of.now (seen self.old)) }
    {
        match of {
            None => self.pass(1),
            Some(of) => self.type_of(of),
        }
    }

    /// A result, a name and parameters.
    fn heading(
        &mut self,
        returned: &'a Option<CType>,
        name: &'a [u8],
        parameters: &'a [CVariable],
    ) -> Result<(), ConditionFault>
        ensures { Gives result (seen self.new) (spec.heading returned.now name.now parameters.now (seen self.old)) }
    {
        self.returned_type(returned)?;
        self.outer_name(name)?;
        self.pass(2)?;
        self.parameters(parameters)?;
        self.pass(1)
    }

    fn prototype(&mut self, prototype: &'a CPrototype) -> Result<(), ConditionFault>
        ensures { Gives result (seen self.new) (spec.prototype prototype.now (seen self.old)) }
    {
        self.heading(
            &prototype.result,
            prototype.name.as_slice(),
            prototype.parameters.as_slice(),
        )?;
        self.forget();
        self.pass(1)
    }

    #[tactic(auto, unfolding(crate::specs::Steps::each))]
    fn prototypes(&mut self, list: &'a [CPrototype]) -> Result<(), ConditionFault>
        ensures { Gives result (seen self.new) (each spec.prototype list.now (seen self.old)) }
    {
        let mut rest = list;
        while let [first, after @ ..] = rest {
            self.prototype(first)?;
            rest = after;
        }
        Ok(())
    }

    fn function(&mut self, function: &'a CFunction) -> Result<(), ConditionFault>
        ensures { Gives result (seen self.new) (spec.function function.now (seen self.old)) }
    {
        let name = function.name.as_slice();
        self.heading(&function.result, name, function.parameters.as_slice())?;
        self.pass(1)?;
        self.inner_block(function.locals.as_slice(), function.body.as_slice())?;
        self.names.add(name)?;
        self.forget();
        self.pass(1)
    }

    #[tactic(auto, unfolding(crate::specs::Steps::each))]
    fn functions(&mut self, list: &'a [CFunction]) -> Result<(), ConditionFault>
        ensures { Gives result (seen self.new) (each spec.function list.now (seen self.old)) }
    {
        let mut rest = list;
        while let [first, after @ ..] = rest {
            self.function(first)?;
            rest = after;
        }
        Ok(())
    }

    fn main(&mut self, main: &'a CMain) -> Result<(), ConditionFault>
        ensures { Gives result (seen self.new) (spec.main main.now (seen self.old)) }
    {
        self.pass(6)?;
        self.inner_block(main.locals.as_slice(), main.body.as_slice())?;
        self.pass(1)
    }

    fn program(&mut self, program: &'a CProgram) -> Result<(), ConditionFault>
        ensures { Gives result (seen self.new) (spec.program program.now (seen self.old)) }
    {
        self.forwards(program.forwards.as_slice())?;
        self.declarations(program.declarations.as_slice())?;
        self.globals(program.globals.as_slice())?;
        self.prototypes(program.prototypes.as_slice())?;
        self.functions(program.functions.as_slice())?;
        self.main(&program.main)
    }
}

/// Checks the further conditions of a program, but for how deep it is nested. Where one fails, the
/// fault is at the token that breaks it.
pub fn check(alloc: Global, program: &CProgram) -> Result<(), ConditionFault>
    ensures ok { OnOk result (HoldAllButLevels (program_demands program.now)) }
    ensures fault { IfErr result (IsFailure (program_demands program.now)) }
{
    let mut checker = Checker::new(alloc);
    checker.program(program)
}
