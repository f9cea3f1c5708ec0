//! The walk over a program's text.
ghost use Rattle.std.specs.Prelude.{◌≡◌, ◌++◌, IfOk, OnOk};
ghost use Rattle.c_evaluation.specs.Numbers.{variables_of};
ghost use Rattle.c_stepper.specs.Codes.{is_loop, Inner, IsNode, IsRow, Extends, IsCode, AreCodes, IsProgramCode};
ghost use Rattle.name_tables.specs.Tables.{Fits};

use crate::resolved::code::{Code, Node, Row};
use crate::resolved::resolve::statement_resolved;
use c_evaluation::function_names::Names;
use c_tree::program::{CFunction, CProgram};
use c_tree::statement::{CStatement, CStatementNode};
use name_tables::Tables;
use std::alloc::{AllocError, Global};

fn is_loop(statement: &CStatement) -> bool
    ensures { result ≡ is_loop statement.now }
{
    match &statement.node {
        CStatementNode::While(_, _) => true,
        _ => false,
    }
}

/// The rows of a statement's branches.
#[derive(Clone, Copy)]
struct Branches {
    first: Row,
    second: Row,
}

/// Notes the branches of a statement.
#[cycle(note)]
fn note_branches(
    alloc: Global,
    names: &Names,
    statement: &CStatement,
    nodes: &mut Vec<Node>,
) -> Result<Branches, AllocError>
    ensures extends { OnOk result (Extends nodes.old.items nodes.new.items) }
    ensures inner { IfOk result (λ b. Inner names.now.program.now (variables_of names.now) nodes.new.items b.first b.second statement.now) }
{
    match &statement.node {
        CStatementNode::If(_, body) => {
            let first = note_list(alloc, names, body.as_slice(), nodes)?;
            Ok(Branches {
                first,
                second: Row::empty(),
            })
        }
        CStatementNode::While(_, body) => {
            let first = note_list(alloc, names, body.as_slice(), nodes)?;
            Ok(Branches {
                first,
                second: Row::empty(),
            })
        }
        CStatementNode::IfElse(_, body, other) => {
            let first = note_list(alloc, names, body.as_slice(), nodes)?;
            let second = note_list(alloc, names, other.as_slice(), nodes)?;
            Ok(Branches { first, second })
        }
        _ => Ok(Branches {
            first: Row::empty(),
            second: Row::empty(),
        }),
    }
}

#[cycle(note)]
fn note_statement(
    alloc: Global,
    names: &Names,
    statement: &CStatement,
    nodes: &mut Vec<Node>,
) -> Result<Node, AllocError>
    ensures extends { OnOk result (Extends nodes.old.items nodes.new.items) }
    ensures node { IfOk result (λ node. IsNode names.now.program.now (variables_of names.now) nodes.new.items node statement.now) }
{
    let Branches { first, second } = note_branches(alloc, names, statement, nodes)?;
    Ok(Node {
        resolved: statement_resolved(alloc, names, statement)?,
        again: is_loop(statement),
        first,
        second,
    })
}

/// Notes the statements of a list. The answer is their row.
#[cycle(note)]
fn note_list(
    alloc: Global,
    names: &Names,
    list: &[CStatement],
    nodes: &mut Vec<Node>,
) -> Result<Row, AllocError>
    ensures extends { OnOk result (Extends nodes.old.items nodes.new.items) }
    ensures noted { IfOk result (λ row. IsRow names.now.program.now (variables_of names.now) nodes.new.items row list.now) }
{
    let mut own = Vec::new(alloc);
    let mut rest = list;
    while let Some((first, after)) = rest.split_first() {
        own.push(note_statement(alloc, names, first, nodes)?)?;
        rest = after;
    }
    let start = nodes.len();
    nodes.append(&mut own)?;
    Ok(Row {
        start,
        count: list.len(),
    })
}

/// The code of a function's text.
fn code_of(alloc: Global, names: &Names, body: &[CStatement]) -> Result<Code, AllocError>
    ensures { IfOk result (λ code. IsCode names.now.program.now (variables_of names.now) code body.now) }
{
    let mut nodes = Vec::new(alloc);
    let row = note_list(alloc, names, body, &mut nodes)?;
    Ok(Code { nodes, row })
}

/// The code of each function's text.
fn codes_of(
    alloc: Global,
    program: &CProgram,
    tables: &Tables,
    functions: &[CFunction],
) -> Result<Vec<Code>, AllocError>
    requires { Fits program.now tables.now }
    ensures { IfOk result (λ codes. AreCodes program.now codes.items functions.now) }
{
    let mut codes = Vec::new(alloc);
    let mut rest = functions;
    while let Some((first, after)) = rest.split_first() {
        codes.push(code_of_function(alloc, program, tables, first)?)?;
        rest = after;
    }
    Ok(codes)
}

fn code_of_function(
    alloc: Global,
    program: &CProgram,
    tables: &Tables,
    function: &CFunction,
) -> Result<Code, AllocError>
    requires { Fits program.now tables.now }
    ensures { IfOk result (λ code. IsCode program.now (function.now.parameters ++ function.now.locals) code function.now.body) }
{
    let names = Names {
        program,
        tables,
        parameters: function.parameters.as_slice(),
        locals: function.locals.as_slice(),
    };
    code_of(alloc, &names, function.body.as_slice())
}

fn code_of_main(alloc: Global, program: &CProgram, tables: &Tables) -> Result<Code, AllocError>
    requires { Fits program.now tables.now }
    ensures { IfOk result (λ code. IsCode program.now program.now.main.locals code program.now.main.body) }
{
    let names = Names {
        program,
        tables,
        parameters: &[],
        locals: program.main.locals.as_slice(),
    };
    code_of(alloc, &names, program.main.body.as_slice())
}

/// The code of a program.
#[derive(Drop)]
pub struct ProgramCode {
    pub main: Code,
    pub functions: Vec<Code>,
}

impl ProgramCode {
    /// The code, in one walk over the program's text, where these are its tables.
    pub fn new(
        alloc: Global,
        program: &CProgram,
        tables: &Tables,
    ) -> Result<ProgramCode, AllocError>
        requires { Fits program.now tables.now }
        ensures { IfOk result (IsProgramCode program.now) }
    {
        let main = code_of_main(alloc, program, tables)?;
        let functions = codes_of(alloc, program, tables, program.functions.as_slice())?;
        Ok(ProgramCode { main, functions })
    }
}
