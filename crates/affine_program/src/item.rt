//! The tree of a program.

use affine_form::{Form, Name};

/// An item of a program's tree. The forms of a loop and of a guard are over the parameters and the loops around it.
#[derive(Debug, Drop)]
pub enum Item {
    /// A loop: its name, its lower and upper bound, both included, whether it runs downward, and its body.
    Loop {
        name: Name,
        lower: Form,
        upper: Form,
        down: bool,
        body: Vec<Item>,
    },
    /// A guard: rows, each to be at least 0, and its body, which runs where they are.
    Guard {
        rows: Vec<Form>,
        body: Vec<Item>,
    },
    /// A statement, by its number in the order of the text.
    Assign(u16),
}
