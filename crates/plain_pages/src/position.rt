//! Places in a source text.

ghost use Rattle.std.specs.Prelude.{◌≡◌, take};
ghost use Rattle.plain_pages.specs.Position.{column_behind, line_behind};

/// A line and a column, both counted from 1. Columns count bytes, as compilers do.
#[derive(Clone, Copy, Debug, PartialEq, Eq)]
pub struct Position {
    pub line: usize,
    pub column: usize,
}

/// The position behind these bytes of a text's beginning.
#[tactic(auto, unfolding(crate::specs::Position::line_behind, crate::specs::Position::column_behind))]
fn position_behind(before: &[u8]) -> Position
    ensures line { result.line ≡ line_behind before.now 1 }
    ensures column { result.column ≡ column_behind before.now 1 }
{
    let mut line = 1;
    let mut column = 1;
    for byte in before {
        if *byte == b'\n' {
            line += 1;
            column = 1;
        } else {
            column += 1;
        }
    }
    Position { line, column }
}

/// The position of the byte at a place of a text, counted from 0. A place past the end is the end.
pub fn position_of(text: &[u8], place: usize) -> Position
    ensures line { result.line ≡ line_behind (take place text.now) 1 }
    ensures column { result.column ≡ column_behind (take place text.now) 1 }
{
    if place < text.len() {
        position_behind(&text[..place])
    } else {
        position_behind(text)
    }
}
