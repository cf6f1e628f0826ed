//! Domains of statements, and the loops that two have in common.

ghost use Rattle.std.specs.Prelude.{◌≡◌, ◌<◌, ◌≤◌, ◌+◌, ◌*◌, length, map, take, drop, is_some, IfOk};
ghost use Rattle.std.specs.List.{AllByRecursion};
ghost use Rattle.affine_form.specs.Rows.{IsSmallOver, direction_of};
ghost use Rattle.affine_form.specs.System.{AllOver};
ghost use Rattle.iolb_model.specs.Path.{item_path, row_path};
ghost use Rattle.iolb_model.specs.Order.{row_common, common_loops};
ghost use Rattle.affine_program.specs.Parts.{meaning};
ghost use Rattle.affine_program.specs.Tree.{item_of, row_of};
ghost use Rattle.affine_program.specs.Domain.{depth_of, domain_of, domain_rows, domain_size};
ghost use Rattle.iolb_model.specs.declared.limits.TheConstants.{GUARDS, LOOPS, VARIABLES};

use crate::item::Item;
use crate::program::Program;
use affine_form::{Form, Memory, System, push_guards, system_of, variables_from, within_rows};
use std::alloc::Global;

impl Program {
    /// The rows which say that values are in a statement's domain, where the first of these forms stand for the parameters
    /// and the others for its loop values: `x - lower` and `upper - x` for each loop around it, outermost first, then the
    /// rows of the guards.
    pub fn domain_rows(
        &self,
        alloc: Global,
        vars: usize,
        statement: u16,
        point: &[Form],
    ) -> Result<Vec<Form>, Memory>
        requires there { statement < length self.now.statements }
        requires few { vars ≤ VARIABLES }
        requires one_each { length point.now ≡ length self.now.params + depth_of (meaning self.now) statement }
        requires point_over { AllByRecursion (IsSmallOver vars) point.now }
        ensures rows { IfOk result (λ rows. rows.items ≡ domain_rows (meaning self.now) statement vars (take (length self.now.params) point.now) (drop (length self.now.params) point.now)) }
        ensures many { IfOk result (λ rows. length rows.items ≡ domain_size (meaning self.now) statement) }
        ensures over { IfOk result (λ rows. AllOver vars rows.items) }
    {
        let params = self.params().len();
        let at = &self.statements()[usize::from(statement)];
        let bounds = at.bounds.as_slice();
        let mut rows = within_rows(alloc, vars, bounds, &point[..params], &point[params..])?;
        push_guards(alloc, vars, at.guards.as_slice(), point, &mut rows)?;
        Ok(rows)
    }

    /// How many rows say that values are in a statement's domain.
    pub fn domain_size(&self, statement: u16) -> usize
        requires { statement < length self.now.statements }
        ensures size { result ≡ domain_size (meaning self.now) statement }
        ensures few { result ≤ 2 * LOOPS + GUARDS }
    {
        let at = &self.statements()[usize::from(statement)];
        2 * at.bounds.as_slice().len() + at.guards.as_slice().len()
    }

    /// The domain of a statement as rows over the parameters and the statement's loop values, each to be at least 0.
    pub fn domain(&self, alloc: Global, statement: u16) -> Result<System, Memory>
        requires { statement < length self.now.statements }
        ensures { IfOk result (λ system. system ≡ domain_of (meaning self.now) statement) }
    {
        let bounds = self.statements()[usize::from(statement)].bounds.as_slice();
        let vars = self.params().len() + bounds.len();
        let point = variables_from(alloc, vars, 0, vars)?;
        let rows = self.domain_rows(alloc, vars, statement, point.as_slice())?;
        let system = system_of(alloc, vars, rows.as_slice())?;
        Ok(system)
    }

    /// How many loops are around both of two statements.
    pub fn common(&self, t: u16, s: u16) -> usize
        requires t_there { t < length self.now.statements }
        requires s_there { s < length self.now.statements }
        ensures { result ≡ length (common_loops (meaning self.now) t s) }
    {
        common_in(self.tree(), t, s)
    }

    /// Whether the loops around both of two statements run downward, outermost first.
    pub fn common_down(&self, t: u16, s: u16) -> &[bool]
        requires t_there { t < length self.now.statements }
        requires s_there { s < length self.now.statements }
        ensures { map direction_of result.now ≡ common_loops (meaning self.now) t s }
    {
        let common = self.common(t, s);
        &self.statements()[usize::from(t)].down.as_slice()[..common]
    }
}

/// How many loops of a row of items are around both of two statements.
fn common_in(items: &[Item], t: u16, s: u16) -> usize
    requires { length (row_common (row_of items.now) t s) ≤ LOOPS }
    ensures { result ≡ length (row_common (row_of items.now) t s) }
{
    for item in items {
        if has(item, t) && has(item, s) {
            return match item {
                Item::Loop { body, .. } => 1 + common_in(body, t, s),
                Item::Guard { body, .. } => common_in(body, t, s),
                Item::Assign(_) => 0,
            };
        }
    }
    0
}

/// Whether a statement is in an item.
#[cycle(membership)]
pub(crate) fn has(item: &Item, statement: u16) -> bool
    ensures { result ≡ is_some (item_path (item_of item.now) statement) }
{
    match item {
        Item::Loop { body, .. } | Item::Guard { body, .. } => has_in(body, statement),
        Item::Assign(number) => *number == statement,
    }
}

/// Whether a statement is in a row of items.
#[cycle(membership)]
fn has_in(items: &[Item], statement: u16) -> bool
    ensures { result ≡ is_some (row_path (row_of items.now) statement) }
{
    for item in items {
        if has(item, statement) {
            return true;
        }
    }
    false
}
