//! Laws of the parser as they stand in `specs/`. Each function does nothing, and its contract is the law.
ghost use Rattle.unit_parser.specs.Laws.{
  DerivedIsRead,
  DerivedIsUnique,
  LevelsAreHeight,
  TreeIsUnique,
};

/// A tree of the tokens is the one that is read.
pub fn derived_is_read()
    ensures { DerivedIsRead }
{}

/// The tokens of a text have one tree, whatever its height.
pub fn tree_is_unique()
    ensures { TreeIsUnique }
{}

/// The tokens of a text have one tree within the levels of `parse`.
pub fn derived_is_unique()
    ensures { DerivedIsUnique }
{}

/// The levels that `parse` allows, counted nodes on a path of what a text is written as, are those
/// of `pascal_tree`'s `height`.
pub fn levels_are_height()
    ensures { LevelsAreHeight }
{}
