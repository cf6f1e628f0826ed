//! What a text means is one program.

ghost use Rattle.affine_c.specs.Laws.{TextsMeanOneProgram};

/// Two programs that a text means are the same.
pub fn texts_mean_one_program()
    ensures { TextsMeanOneProgram }
{}
