//! The faults of program texts, in sentences.

ghost use Rattle.std.specs.Prelude.{◌≡◌, ◌≤◌, ◌-◌, ◌↔◌, IsSome, IfSome, Some, slice_get};
ghost use Rattle.help_pages.specs.Faults.{fault_helps, fault_texts};

/// What is said of a fault: what is wrong, and what to write instead.
#[derive(Clone, Copy)]
pub struct Fault {
    pub wrong: &'static str,
    pub instead: &'static str,
}

/// What is wrong where a text has the fault of this number.
fn fault_wrong(number: u64) -> Option<&'static str>
    ensures there { IsSome result ↔ ((1 ≤ number) × (number ≤ 12)) }
    ensures text { IfSome result (λ text. slice_get fault_texts (number - 1) ≡ Some text.now) }
{
    Some(match number {
        1 => "there is no line `#pragma scop`, or no line `#pragma endscop` behind it",
        2 => "this byte begins no token of C, or the comment that begins here isn't closed",
        3 => "this can't stand here",
        4 => "this isn't affine: a sum of names and numbers, each name times a number",
        5 => "the loop doesn't step by one, or steps the other way than its comparison",
        6 =>
            "this name is of another kind than is wanted here: a parameter or a loop where an array is wanted, or an array or a loop that was left where a number is wanted",
        7 => "this loop has the name of a loop around it, of a parameter or of an array",
        8 => "this array had another number of subscripts before",
        9 => "more than 6 loops are nested, or more than 64 brackets are open",
        10 =>
            "this is one too many: there may be 6 parameters, 32 assumptions, 32 statements, 32 reads in a statement, 128 arrays, 4 subscripts, 16 comparisons in the `if`s around a statement, of which `==` is two, and 64 bytes in a name",
        11 => "a number here, or a coefficient of this expression, is of size 2^20 or more",
        12 => "this is an `else`, or an `if` whose condition isn't affine",
        _ => return None,
    })
}

/// What to write instead where a text has the fault of this number.
fn fault_instead(number: u64) -> Option<&'static str>
    ensures there { IsSome result ↔ ((1 ≤ number) × (number ≤ 12)) }
    ensures text { IfSome result (λ text. slice_get fault_helps (number - 1) ≡ Some text.now) }
{
    Some(match number {
        1 => "put the loops between these two lines, each alone on its line",
        2 => "remove it, or close the comment",
        3 =>
            "write loops `for (int i = LOWER; i < UPPER; i++)` or `for (int i = UPPER; i >= LOWER; i--)`, `if` with affine comparisons, blocks, and assignments to cells, and nothing else",
        4 =>
            "write whole numbers, parameters and loops around it, joined by `+`, `-`, and `*` by a number",
        5 =>
            "write `for (int i = FIRST; i < END; i++)` or `for (int i = FIRST; i >= LAST; i--)`, and use another form of `i` where the loop stepped otherwise",
        6 => "rename it, or move it into the loop's body",
        7 => "give it a name of its own",
        8 => "write as many subscripts as where it stands first",
        9 => "split the nest",
        10 => "split the program",
        11 => "name the number as a parameter: the numbers of a text are of size below 1048576",
        12 =>
            "write comparisons of affine expressions, joined by `&&`, and a second `if` with the opposite condition for an `else`",
        _ => return None,
    })
}

/// What is said of the fault of this number, from 1 to 12.
pub fn fault_of(number: u64) -> Option<Fault>
    ensures there { IsSome result ↔ ((1 ≤ number) × (number ≤ 12)) }
    ensures wrong { IfSome result (λ said. slice_get fault_texts (number - 1) ≡ Some said.wrong.now) }
    ensures instead { IfSome result (λ said. slice_get fault_helps (number - 1) ≡ Some said.instead.now) }
{
    match (fault_wrong(number), fault_instead(number)) {
        (Some(wrong), Some(instead)) => Some(Fault { wrong, instead }),
        _ => None,
    }
}
