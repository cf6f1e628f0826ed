//! Programs of matrix products.

ghost use Rattle.std.specs.Prelude.{◌≡◌, ◌≤◌, ◌<◌, ◌+◌, ◌*◌, ◌++◌, ◌∷◌, [], pos, ℕ, List, length, map, codes, decimal, IfOk, OnOk};
ghost use Rattle.std.specs.List.{AllByRecursion};
ghost use Rattle.iolb_model.specs.Program.{upward, loop, next, done};
ghost use Rattle.iolb_model.specs.declared.limits.TheConstants.{PRODUCTS};
ghost use Rattle.affine_form.specs.Rows.{variable};
ghost use Rattle.affine_program.specs.Limits.{IsSmallReference};
ghost use Rattle.affine_program.specs.Parts.{access_of, meaning, statement_of};
ghost use Rattle.affine_program.specs.Tree.{item_of};
ghost use Rattle.affine_c.specs.Products.{IsInProductNest, first_value, last_value, matrix_cell, matrix_names, product_bounds, product_nest, product_program, product_statement};

use affine_form::{Form, Memory, Name, System, variable};
use affine_program::{Item, Program, Reference, Statement};
use std::alloc::Global;

/// The program of so many products of square matrices, 1 to 32 of them, each of matrices of its own: for each product, loops i, j
/// and k from 0 to N - 1 around the statement that computes C\[i\]\[j\] of itself, A\[i\]\[k\] and B\[k\]\[j\]. The parameter N is at least 1.
/// Want of memory is its only error.
pub fn products(alloc: Global, n: u8) -> Result<Program, Memory>
    requires some { 1 ≤ n }
    requires few { n ≤ PRODUCTS }
    ensures { IfOk result (λ program. meaning program ≡ product_program n) }
{
    let params = parameters(alloc)?;
    let assumed = assumptions(alloc)?;
    let mut arrays = Vec::new(alloc);
    let mut statements = Vec::new(alloc);
    let mut tree = Vec::new(alloc);
    for product in 0..n {
        push_matrices(alloc, &mut arrays, product)?;
        statements.push(product_statement(alloc, product)?)?;
        tree.push(product_nest(alloc, product)?)?;
    }
    Ok(Program::from_parts(params, assumed, arrays, statements, tree))
}

/// The parameter N.
fn parameters(alloc: Global) -> Result<Vec<Name>, Memory>
    ensures { IfOk result (λ names. names.items ≡ codes "N" ∷ []) }
{
    let mut names = Vec::new(alloc);
    names.push(name_of(alloc, b"N")?)?;
    Ok(names)
}

/// That the parameter is at least 1.
fn assumptions(alloc: Global) -> Result<System, Memory>
    ensures { IfOk result (λ system. system ≡ record { vars = 1; rows = last_value 0 ∷ [] }) }
{
    let mut system = System::new(alloc, 1);
    system.push(last_value(alloc, 0)?)?;
    Ok(system)
}

/// A name of a few bytes.
fn name_of(alloc: Global, bytes: &[u8]) -> Result<Name, Memory>
    requires some { 1 ≤ length bytes.now }
    requires few { length bytes.now ≤ 64 }
    ensures { IfOk result (λ name. name ≡ bytes.now) }
{
    let name = Vec::from_slice(alloc, bytes)?;
    Ok(Name::new(name))
}

/// The names of a product's matrices, each with two subscripts, put at the end.
fn push_matrices(alloc: Global, arrays: &mut Vec<(Name, u8)>, product: u8) -> Result<(), Memory>
    ensures { OnOk result (arrays.new.items ≡ arrays.old.items ++ map (λ name. (name, 2)) (matrix_names product)) }
{
    arrays.push((matrix_name(alloc, b"C", product)?, 2))?;
    arrays.push((matrix_name(alloc, b"A", product)?, 2))?;
    arrays.push((matrix_name(alloc, b"B", product)?, 2))?;
    Ok(())
}

/// A letter and the number of a product.
fn matrix_name(alloc: Global, letter: &[u8], product: u8) -> Result<Name, Memory>
    requires { length letter.now ≡ 1 }
    ensures { IfOk result (λ name. name ≡ letter.now ++ decimal product) }
{
    let number = format!(in alloc; "{product}")?;
    let mut name = Vec::from_slice(alloc, letter)?;
    name.extend_from_slice(number.as_bytes())?;
    Ok(Name::new(name))
}

/// 0, where so many loops are around.
fn first_value(alloc: Global, loops: usize) -> Result<Form, Memory>
    requires { loops ≤ 2 }
    ensures { IfOk result (λ form. form ≡ first_value loops) }
{
    let coef = vec![in alloc; 0; loops + 1]?;
    Ok(Form::new(coef, 0))
}

/// The parameter less 1, where so many loops are around.
fn last_value(alloc: Global, loops: usize) -> Result<Form, Memory>
    requires { loops ≤ 2 }
    ensures { IfOk result (λ form. form ≡ last_value loops) }
{
    let mut coef = Vec::new(alloc);
    coef.push(1)?;
    coef.resize(loops + 1, 0)?;
    Ok(Form::new(coef, -1))
}

/// A reference to an array at two of the variables N, i, j and k.
fn matrix_cell(alloc: Global, array: u16, row: usize, column: usize) -> Result<Reference, Memory>
    requires row { row < 4 }
    requires column { column < 4 }
    ensures access { IfOk result (λ cell. access_of cell ≡ matrix_cell array row column) }
    ensures small { IfOk result IsSmallReference }
{
    let mut subs = Vec::new(alloc);
    subs.push(variable(alloc, 4, row)?)?;
    subs.push(variable(alloc, 4, column)?)?;
    Ok(Reference { array, subs })
}

/// The bounds of the loops around a product's statement.
fn product_bounds(alloc: Global) -> Result<Vec<(Form, Form)>, Memory>
    ensures { IfOk result (λ bounds. bounds.items ≡ product_bounds) }
{
    let mut bounds = Vec::new(alloc);
    bounds.push((first_value(alloc, 0)?, last_value(alloc, 0)?))?;
    bounds.push((first_value(alloc, 1)?, last_value(alloc, 1)?))?;
    bounds.push((first_value(alloc, 2)?, last_value(alloc, 2)?))?;
    Ok(bounds)
}

/// The statement of a product.
fn product_statement(alloc: Global, product: u8) -> Result<Statement, Memory>
    ensures statement { IfOk result (λ statement. statement_of statement ≡ product_statement product) }
    ensures nest { IfOk result IsInProductNest }
{
    let first = u16::from(product) * 3;
    let mut reads = Vec::new(alloc);
    reads.push(matrix_cell(alloc, first, 1, 2)?)?;
    reads.push(matrix_cell(alloc, first + 1, 1, 3)?)?;
    reads.push(matrix_cell(alloc, first + 2, 3, 2)?)?;
    Ok(Statement {
        bounds: product_bounds(alloc)?,
        down: vec![in alloc; false; 3]?,
        guards: Vec::new(alloc),
        writes: matrix_cell(alloc, first, 1, 2)?,
        reads,
    })
}

/// The loops around the statement of a product.
fn product_nest(alloc: Global, product: u8) -> Result<Item, Memory>
    ensures { IfOk result (λ item. item_of item ≡ product_nest product) }
{
    let innermost = loop_around(alloc, b"k", 2, Item::Assign(u16::from(product)))?;
    let middle = loop_around(alloc, b"j", 1, innermost)?;
    loop_around(alloc, b"i", 0, middle)
}

/// A loop upward from 0 to N - 1, inside so many loops, around an item.
fn loop_around(alloc: Global, name: &[u8], loops: usize, item: Item) -> Result<Item, Memory>
    requires name { length name.now ≡ 1 }
    requires loops { loops ≤ 2 }
    ensures { IfOk result (λ made. item_of made ≡ loop name.now upward (first_value loops) (last_value loops) (next (item_of item) done)) }
{
    let mut body = Vec::new(alloc);
    body.push(item)?;
    Ok(Item::Loop {
        name: name_of(alloc, name)?,
        lower: first_value(alloc, loops)?,
        upper: last_value(alloc, loops)?,
        down: false,
        body,
    })
}
