//! The words of printed texts.

ghost use Rattle.affine_c.specs.PrintedWords.{WordsArePrinted};

/// The words of the text that prints a program are those of the program's syntax tree.
pub fn words_are_printed()
    ensures { WordsArePrinted }
{}
