//! What is said of a fault where certain words stand at its place.

ghost use Rattle.std.specs.Prelude.{◌≡◌, IfSome};
ghost use Rattle.program_messages.specs.Rules.{fault_number, rule_help, rule_text};

use crate::words::is_listed;

/// What stands at the place of a fault.
#[derive(Clone, Copy, Debug, PartialEq, Eq)]
pub enum Rule {
    /// A line of the preprocessor.
    Directive,
    /// A string or a character.
    Quotation,
    /// A comment that isn't closed.
    OpenComment,
    /// A cast.
    Cast,
    /// The type of a loop's name.
    LoopType,
    /// A declaration.
    Declaration,
    /// A choice by `?:`.
    Choice,
    /// Another operator.
    Operator,
    /// A loop that is no `for` loop.
    OtherLoop,
    /// A jump.
    Jump,
    /// An `else` that isn't behind an `if`.
    Else,
    /// `x++` or `x--` as a statement.
    Step,
    /// A call as a statement.
    Call,
    /// A member of a struct.
    Member,
    /// A pointer.
    Pointer,
    /// A product of names.
    Product,
    /// A quotient or a remainder.
    Quotient,
    /// A minimum or maximum in a form.
    Minimum,
    /// A call in a form.
    CallInForm,
    /// A cell of an array in a form.
    CellInForm,
    /// A step that goes the other way than the comparison.
    OtherWay,
    /// A loop inside too many others.
    TooDeep,
    /// An `else`.
    OtherBranch,
    /// An `if` whose condition isn't affine.
    Condition,
}

/// The words that begin a declaration.
pub(crate) const TYPES: &str =
    "double float int char long short unsigned signed const static register void struct auto volatile size_t bool _Bool";

const FUNCTION: &str =
    "write a function of what it reads, as `f(a, b, c)`: a value counts only by its references";

const OTHER_IF: &str =
    "write a second `if`, with the opposite condition: where `i < N` isn't so, `i >= N` is";

impl Rule {
    /// What is wrong.
    pub(crate) fn wrong(self) -> &'static str
        ensures { result.now ≡ rule_text self }
    {
        match self {
            Rule::Directive => {
                "a line of the preprocessor can't stand between `#pragma scop` and `#pragma endscop`"
            }
            Rule::Quotation => "a string or a character can't stand in a program that is read",
            Rule::OpenComment => "the comment that begins here isn't closed",
            Rule::Cast => "a cast isn't read",
            Rule::LoopType => "a loop's name is declared as `int` or not at all",
            Rule::Declaration => {
                "a declaration can't stand between `#pragma scop` and `#pragma endscop`"
            }
            Rule::Choice => "`?:` isn't read",
            Rule::Operator => "this operator can't stand here",
            Rule::OtherLoop => "only `for` loops are read",
            Rule::Jump => "a program that is read has no jumps",
            Rule::Else => "an `else` can't stand here",
            Rule::Step => "this can't stand here; `x++` and `x--` are no statements that are read",
            Rule::Call => "a call is no statement that is read",
            Rule::Member => "a member of a struct isn't read",
            Rule::Pointer => "a pointer isn't read",
            Rule::Product => "a product of names isn't affine",
            Rule::Quotient => "a quotient or a remainder isn't affine",
            Rule::Minimum => "a minimum, a maximum or `?:` can't stand in a bound or a subscript",
            Rule::CallInForm => "a call can't stand in a bound or a subscript",
            Rule::CellInForm => "a cell of an array can't stand in a bound or a subscript",
            Rule::OtherWay => "the loop steps the other way than its comparison",
            Rule::TooDeep => "more than 6 loops are nested",
            Rule::OtherBranch => "an `else` isn't read",
            Rule::Condition => "the condition of this `if` isn't affine",
        }
    }

    /// What to write instead.
    pub(crate) fn instead(self) -> &'static str
        ensures { result.now ≡ rule_help self }
    {
        match self {
            Rule::Directive => "move it above `#pragma scop`",
            Rule::Quotation => "write a number, or move the line out of the two pragmas",
            Rule::OpenComment => "close it by `*/`",
            Rule::Cast => "leave it out: a value counts only by its references",
            Rule::LoopType => "write `for (int i = ..`",
            Rule::Declaration => {
                "declare it above `#pragma scop`, and assign to it here: a name without subscripts is an array with one cell"
            }
            Rule::Choice => FUNCTION,
            Rule::Operator => FUNCTION,
            Rule::OtherLoop => {
                "write `for (int t = 0; t < T_STEPS; t++)`, with a parameter for the number of turns"
            }
            Rule::Jump => "bound the loops as they run to their ends",
            Rule::Else | Rule::OtherBranch => OTHER_IF,
            Rule::Step => "write `x += 1;`",
            Rule::Call => "write an assignment of what it computes, as `y[i] = f(x[i]);`",
            Rule::Member => "write an array of its own for each member",
            Rule::Pointer => "write the cell by its array and subscripts",
            Rule::Product => {
                "write a subscript for each dimension, as `A[i][j]` for `A[i*N + j]`; where two parameters are multiplied, name the product as one"
            }
            Rule::Quotient => {
                "name the number of turns as a parameter, and write a multiple of the loop, as `2*i` for an even number"
            }
            Rule::Minimum => {
                "write the loops as they are before they are tiled: a bound holds of every order of the instances; else split the loop"
            }
            Rule::CallInForm => "name its value as a parameter",
            Rule::CellInForm => {
                "only loops, parameters and numbers may tell which cell is meant: bound a program that reads them in the order of the loops"
            }
            Rule::OtherWay => { "write `<` or `<=` with `i++`, and `>` or `>=` with `i--`" }
            Rule::TooDeep => "bound an inner part of the nest, with the outer loops as parameters",
            Rule::Condition => {
                "compare sums of loops and parameters, each times a number, and join the comparisons by `&&`"
            }
        }
    }
}

/// The rule for what begins no token.
fn token_rule(word: &[u8]) -> Option<Rule>
    ensures { IfSome result (λ rule. fault_number rule ≡ 2) }
{
    if is_listed("#", word) {
        Some(Rule::Directive)
    } else if is_listed("\" '", word) {
        Some(Rule::Quotation)
    } else if is_listed("/", word) {
        Some(Rule::OpenComment)
    } else {
        None
    }
}

/// The rule for what can't stand where it does.
fn statement_rule(word: &[u8]) -> Option<Rule>
    ensures { IfSome result (λ rule. fault_number rule ≡ 3) }
{
    if is_listed("CAST", word) {
        Some(Rule::Cast)
    } else if is_listed("LOOP_TYPE", word) {
        Some(Rule::LoopType)
    } else if is_listed(TYPES, word) {
        Some(Rule::Declaration)
    } else if is_listed("?", word) {
        Some(Rule::Choice)
    } else if is_listed("< > = ! & | ^ ~", word) {
        Some(Rule::Operator)
    } else if is_listed("while do", word) {
        Some(Rule::OtherLoop)
    } else {
        other_statement_rule(word)
    }
}

/// The rule for what else can't stand where it does.
fn other_statement_rule(word: &[u8]) -> Option<Rule>
    ensures { IfSome result (λ rule. fault_number rule ≡ 3) }
{
    if is_listed("return goto break continue switch case default", word) {
        Some(Rule::Jump)
    } else if is_listed("else", word) {
        Some(Rule::Else)
    } else if is_listed("+ -", word) {
        Some(Rule::Step)
    } else if is_listed("(", word) {
        Some(Rule::Call)
    } else if is_listed(".", word) {
        Some(Rule::Member)
    } else if is_listed("*", word) {
        Some(Rule::Pointer)
    } else {
        None
    }
}

/// The rule for what isn't affine.
fn form_rule(word: &[u8]) -> Option<Rule>
    ensures { IfSome result (λ rule. fault_number rule ≡ 4) }
{
    if is_listed("*", word) {
        Some(Rule::Product)
    } else if is_listed("/ %", word) {
        Some(Rule::Quotient)
    } else if is_listed("MINIMUM ?", word) {
        Some(Rule::Minimum)
    } else if is_listed("CALL", word) {
        Some(Rule::CallInForm)
    } else if is_listed("[", word) {
        Some(Rule::CellInForm)
    } else {
        None
    }
}

/// The rule for a fault of this number where this word stands.
pub(crate) fn rule_for(number: u8, word: &[u8]) -> Option<Rule>
    ensures { IfSome result (λ rule. fault_number rule ≡ number) }
{
    match number {
        2 => token_rule(word),
        3 => statement_rule(word),
        4 => form_rule(word),
        5 if is_listed("OTHERWAY", word) => Some(Rule::OtherWay),
        9 if is_listed("for", word) => Some(Rule::TooDeep),
        12 if is_listed("else", word) => Some(Rule::OtherBranch),
        12 if is_listed("if", word) => Some(Rule::Condition),
        _ => None,
    }
}
