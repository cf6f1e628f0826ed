//! Affine programs.

ghost use Rattle.std.specs.Prelude.{◌≡◌, IfOk, MatchOption};
ghost use Rattle.affine_program.specs.Parts.{ProgramParts, IsProgram};

use crate::draft::Draft;
use crate::item::Item;
use crate::statement::Statement;
use crate::well_formed::is_program;
use affine_form::{Memory, Name, System};
use std::alloc::Global;
use std::marker::Model;

/// An affine loop program (Feautrier 1991): its parameters, the assumptions about them, its arrays with their numbers
/// of subscripts, its statements in the order of the text, and its tree of loops over statements. The statements are
/// numbered in the order of the text, and each has the bounds of the loops around it.
#[derive(Debug, Drop)]
pub struct Program {
    params: Vec<Name>,
    assumed: System,
    arrays: Vec<(Name, u8)>,
    statements: Vec<Statement>,
    tree: Vec<Item>,
}

impl Model for Program {
    ghost use Rattle.affine_program.specs.Parts.{ProgramParts, IsProgram};
    ghost use Rattle.affine_program.specs.contracts.item.Item as item;
    ghost use Rattle.std.specs.Coded.{codes};

    ghost Value = { ProgramParts };

    ghost coded = { Prim.hlevel (codes, item.the_row.coded) };

    ghost view = { λ program. record { params = program.params.items; assumed = program.assumed; arrays = program.arrays.items; statements = program.statements.items; tree = program.tree.items } };

    ghost invariant = { λ program. IsProgram (record { params = program.params.items; assumed = program.assumed; arrays = program.arrays.items; statements = program.statements.items; tree = program.tree.items }) };
}

impl Program {
    /// The program of parts that make one: `Program::new` decides whether they do.
    pub fn from_parts(
        params: Vec<Name>,
        assumed: System,
        arrays: Vec<(Name, u8)>,
        statements: Vec<Statement>,
        tree: Vec<Item>,
    ) -> Program
        requires { IsProgram (record { params = params.items; assumed = assumed; arrays = arrays.items; statements = statements.items; tree = tree.items }) }
        ensures { result ≡ record { params = params.items; assumed = assumed; arrays = arrays.items; statements = statements.items; tree = tree.items } }
    {
        Program {
            params,
            assumed,
            arrays,
            statements,
            tree,
        }
    }

    /// The program of these parts, and `None` exactly where they don't make one: it is to be well formed, each statement
    /// with the bounds of the loops around it, and within the limits of `iolb_model::limits`.
    pub fn new(
        alloc: Global,
        params: Vec<Name>,
        assumed: System,
        arrays: Vec<(Name, u8)>,
        statements: Vec<Statement>,
        tree: Vec<Item>,
    ) -> Result<Option<Program>, Memory>
        ensures { IfOk result (λ made. let parts : ProgramParts = record { params = params.items; assumed = assumed; arrays = arrays.items; statements = statements.items; tree = tree.items } in
            MatchOption made (¬ IsProgram parts) (λ program. program ≡ parts)) }
    {
        let draft = Draft {
            params,
            assumed,
            arrays,
            statements,
            tree,
        };
        if !is_program(alloc, &draft)? {
            return Ok(None);
        }
        let Draft {
            params,
            assumed,
            arrays,
            statements,
            tree,
        } = draft;
        Ok(Some(Program::from_parts(params, assumed, arrays, statements, tree)))
    }

    /// The parameters' names, in order of first sight.
    pub fn params(&self) -> &[Name]
        ensures params { result.now ≡ self.now.params }
        ensures kept { IsProgram self.now }
    {
        self.params.as_slice()
    }

    /// The assumptions, each a form of the parameters that is at least 0.
    pub fn assumed(&self) -> &System
        ensures assumed { result.now ≡ self.now.assumed }
        ensures kept { IsProgram self.now }
    {
        &self.assumed
    }

    /// The arrays, each with its number of subscripts.
    pub fn arrays(&self) -> &[(Name, u8)]
        ensures arrays { result.now ≡ self.now.arrays }
        ensures kept { IsProgram self.now }
    {
        self.arrays.as_slice()
    }

    /// The statements, in the order of the text.
    pub fn statements(&self) -> &[Statement]
        ensures statements { result.now ≡ self.now.statements }
        ensures kept { IsProgram self.now }
    {
        self.statements.as_slice()
    }

    /// The tree.
    pub fn tree(&self) -> &[Item]
        ensures tree { result.now ≡ self.now.tree }
        ensures kept { IsProgram self.now }
    {
        self.tree.as_slice()
    }
}
