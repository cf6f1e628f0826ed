//! How lines are compared.

ghost use Rattle.c_tokens.specs.Compared.{ComparesLines};

/// A line begins with words, and reads as words, exactly where its compared form does: without spaces, tabs and carriage
/// returns at its ends, and with one space for each run of spaces and tabs inside it.
pub fn lines_are_compared()
    ensures { ComparesLines }
{}
