//! One routine: what is drawn for it, and its text.

ghost use Rattle.std.specs.Prelude.{◌≡◌, ◌<◌, ◌≤◌, ◌++◌, OnOk};
ghost use Rattle.pascal_samples.specs.Draws.{draws, first_draws, kind_of, later_draws};
ghost use Rattle.pascal_samples.specs.Text.{body_text, routine_text};

use crate::append::{append_with, append_with_two};
use crate::draw::{below, next};
use std::alloc::AllocError;

/// What a routine does.
#[derive(Clone, Copy)]
pub enum RoutineKind {
    /// It adds to the sum.
    Plain,
    /// It adds and calls a routine before it.
    Calling,
    /// A routine in it changes its variable and calls a routine before it.
    Nested,
    /// A routine in it may go to its label.
    Jumping,
}

/// What is drawn for a routine, and the generator's state after it.
#[derive(Clone, Copy)]
pub struct Drawn {
    pub kind: RoutineKind,
    /// What it adds, 1 to 900.
    pub amount: u64,
    /// The number of the routine that it calls.
    pub callee: u64,
    pub state: u64,
}

fn kind_of(draw: u64) -> RoutineKind
    ensures { result ≡ kind_of draw }
{
    match draw {
        0 => RoutineKind::Plain,
        1 => RoutineKind::Calling,
        2 => RoutineKind::Nested,
        _ => RoutineKind::Jumping,
    }
}

/// What is drawn for the routine with this number, 1 or more.
pub(crate) fn draws(number: u64, state: u64) -> Drawn
    requires { 1 ≤ number }
    ensures { result ≡ draws number state }
{
    if number == 1 {
        first_draws(state)
    } else {
        later_draws(number, state)
    }
}

fn first_draws(state: u64) -> Drawn
    ensures { result ≡ first_draws state }
{
    let amount = next(state);
    Drawn {
        kind: RoutineKind::Plain,
        amount: below(900, amount) + 1,
        callee: 0,
        state: amount,
    }
}

fn later_draws(number: u64, state: u64) -> Drawn
    requires { 1 < number }
    ensures { result ≡ later_draws number state }
{
    let kind = next(state);
    let amount = next(kind);
    let callee = next(amount);
    Drawn {
        kind: kind_of(below(4, kind)),
        amount: below(900, amount) + 1,
        callee: below(number - 1, callee) + 1,
        state: callee,
    }
}

/// The lines of a routine.
pub(crate) fn append_routine(
    out: &mut Vec<u8>,
    number: u64,
    drawn: &Drawn,
) -> Result<(), AllocError>
    ensures { OnOk result (out.new.items ≡ out.old.items ++ routine_text number drawn.now) }
{
    append_with(out, b"procedure p", number, b"(n: integer);\n")?;
    append_body(out, drawn.kind, drawn.amount, drawn.callee)
}

fn append_body(
    out: &mut Vec<u8>,
    kind: RoutineKind,
    amount: u64,
    callee: u64,
) -> Result<(), AllocError>
    ensures { OnOk result (out.new.items ≡ out.old.items ++ body_text kind amount callee) }
{
    match kind {
        RoutineKind::Plain => append_with(
            out,
            b"begin g := (g + n * ",
            amount,
            b") mod 10000 end;\n",
        ),
        RoutineKind::Calling => append_with_two(
            out,
            b"begin g := (g + ",
            amount,
            b") mod 10000; if n < 20 then p",
            callee,
            b"(n + 1) end;\n",
        ),
        RoutineKind::Nested => append_with_two(
            out,
            b"var v: integer;\nprocedure q;\nbegin v := v + ",
            amount,
            b"; if n < 20 then p",
            callee,
            b"(n + 1) end;\nbegin v := n; q; g := (g + v) mod 10000 end;\n",
        ),
        RoutineKind::Jumping => append_with_two(
            out,
            b"label 1;\nprocedure q;\nbegin if n mod 2 = 0 then goto 1; g := (g + ",
            amount,
            b") mod 10000 end;\nbegin q; if n < 20 then p",
            callee,
            b"(n + 1); 1: g := (g + 1) mod 10000 end;\n",
        ),
    }
}
