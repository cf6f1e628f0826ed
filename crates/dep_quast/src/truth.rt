//! What valid source trees say.

ghost use Rattle.dep_quast.specs.Truth.{ValidTreesAreTrue};

/// A law: a valid source tree is true. At all admitted parameter values, of any size, and every instance of the reading
/// statement in the execution, the leaf that the tests choose names the instance that last wrote the cell, or says
/// rightly that there is none, or is blank. (Feautrier 1991.)
pub fn valid_trees_are_true()
    ensures { ValidTreesAreTrue }
{}
