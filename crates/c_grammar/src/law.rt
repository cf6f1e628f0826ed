//! The texts that are read.

ghost use Rattle.c_grammar.specs.Laws.{AcceptedSpells, SpelledIsAccepted};
ghost use Rattle.c_grammar.specs.Points.{LoopsTakeValues, RowsHaveValues, RowsHoldSo};
ghost use Rattle.c_grammar.specs.Well.{ReadingsAreWellRead};

/// A text that is accepted spells a tree of the grammar, and what was read is what the tree means.
pub fn accepted_texts_spell()
    ensures { AcceptedSpells }
{}

/// A text that spells a tree of the grammar is accepted where the tree is within the limits, and what is read is what the
/// tree means.
pub fn spelled_texts_are_accepted()
    ensures { SpelledIsAccepted }
{}

/// What every text that is read keeps: its names are C's and differ, its references fit their arrays, its rows are over
/// the parameters and the loops around them, its loops begin and end in turn, and all of it is within the limits.
pub fn readings_are_well_read()
    ensures { ReadingsAreWellRead }
{}

/// The row that an expression means has the expression's value at every point.
pub fn rows_have_values()
    ensures { RowsHaveValues }
{}

/// A comparison holds at a point exactly where the rows that it means are at least 0 there.
pub fn rows_hold_so()
    ensures { RowsHoldSo }
{}

/// A loop runs downward where its comparison and its step say so, and its values are exactly those from its first value on
/// for which its comparison holds.
pub fn loops_take_values()
    ensures { LoopsTakeValues }
{}
