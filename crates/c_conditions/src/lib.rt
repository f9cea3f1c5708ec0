//! Checks the further conditions of the C subset, but for how deep a text is nested, which whoever
//! builds the tree sees to.
//!
//! `program_demands` of c_grammar lists what a program demands at which of its tokens. `check` goes
//! over the tree once, counts the tokens that its parts spell, and keeps the names that are above in
//! tables. Where it answers `Ok`, each demand that is no level's holds; a fault names the kind and the
//! token of a demand that does not.
//!
//! `specs/Steps.antt` and the files of steps beside it say what the code does as steps over a
//! `World`, in which each table is the function that it stands for. The files `Meets` of `proofs/`
//! show part by part that these steps find whether the demands hold.
#![tactic(auto)]

mod checker;
mod declaration;
mod expr;
mod fault;
mod program;
mod statement;
mod table;
mod types;

pub use fault::ConditionFault;
pub use program::check;
