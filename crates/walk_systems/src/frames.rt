//! Systems of nests, and of readers at their points.

use crate::points::{bound_rows, followed, put_all, variables};
use affine_form::{Form, Memory};
use affine_program::{Program, Reference};
use asked_systems::{Says, Sum, System, nest_names, put_loop_names};
use dep_quast::reader::Reader;
use std::alloc::Global;

/// The bounds of the loops around a statement; none where it isn't there.
pub(crate) fn loops_of(program: &Program, statement: u16) -> &[(Form, Form)] {
    match program.statements().get(usize::from(statement)) {
        Some(there) => there.bounds.as_slice(),
        None => &[],
    }
}

/// The rows of the guards around a statement; none where it isn't there.
fn guards_of(program: &Program, statement: u16) -> &[Form] {
    match program.statements().get(usize::from(statement)) {
        Some(there) => there.guards.as_slice(),
        None => &[],
    }
}

/// The reference of a read, where it is there.
pub(crate) fn reference_at(program: &Program, reader: Reader) -> Option<&Reference> {
    let there = program.statements().get(usize::from(reader.statement))?;
    there.reads.get(usize::from(reader.read))
}

/// The parameters, over so many variables.
pub(crate) fn parameters(
    alloc: Global,
    program: &Program,
    vars: usize,
) -> Result<Vec<Sum>, Memory> {
    variables(alloc, vars, 0, program.params().len())
}

/// The parameters and the variables of a nest, over so many.
pub(crate) fn nest_point(
    alloc: Global,
    program: &Program,
    bounds: &[(Form, Form)],
    vars: usize,
) -> Result<Vec<Sum>, Memory> {
    variables(
        alloc,
        vars,
        0,
        program.params().len().saturating_add(bounds.len()),
    )
}

/// Puts the assumptions and the rows of a nest into a system, whose variables are the parameters, the nest's, and
/// others.
pub(crate) fn push_nest(
    alloc: Global,
    system: &mut System,
    program: &Program,
    bounds: &[(Form, Form)],
) -> Result<(), Memory> {
    let vars = system.vars();
    let params = parameters(alloc, program, vars)?;
    let assumed = put_all(alloc, vars, program.assumed().rows(), params.as_slice())?;
    system.push_all(alloc, assumed.as_slice(), Says::Assumed)?;
    let values = variables(alloc, vars, params.len(), bounds.len())?;
    let rows = bound_rows(alloc, vars, bounds, params.as_slice(), values.as_slice())?;
    system.push_all(alloc, rows.as_slice(), Says::Nest)
}

/// The system of a nest's points.
pub(crate) fn nest_system(
    alloc: Global,
    program: &Program,
    bounds: &[(Form, Form)],
) -> Result<System, Memory> {
    let names = nest_names(alloc, program, bounds.len())?;
    let mut system = System::new(alloc, names);
    push_nest(alloc, &mut system, program, bounds)?;
    Ok(system)
}

/// The instances of a statement that read, at the points of a nest.
#[derive(Clone, Copy)]
pub(crate) struct Frame<'a> {
    pub(crate) program: &'a Program,
    pub(crate) bounds: &'a [(Form, Form)],
    pub(crate) statement: u16,
}

impl Frame<'_> {
    /// How many variables there are in front of the loop values: the parameters and the nest's.
    pub(crate) fn outer(self) -> usize {
        self.program
            .params()
            .len()
            .saturating_add(self.bounds.len())
    }

    /// How many loops are around the statement.
    fn loops(self) -> usize {
        loops_of(self.program, self.statement).len()
    }

    /// How many variables there are.
    pub(crate) fn vars(self) -> usize {
        self.outer().saturating_add(self.loops())
    }

    /// The loop values.
    pub(crate) fn values(self, alloc: Global) -> Result<Vec<Sum>, Memory> {
        variables(alloc, self.vars(), self.outer(), self.loops())
    }

    /// The parameters, and these values behind them.
    pub(crate) fn with_params(self, alloc: Global, values: &[Sum]) -> Result<Vec<Sum>, Memory> {
        let params = parameters(alloc, self.program, self.vars())?;
        followed(alloc, params, values)
    }

    /// The parameters and the nest's variables, and these values behind them.
    pub(crate) fn with_nest(self, alloc: Global, values: &[Sum]) -> Result<Vec<Sum>, Memory> {
        let outer = nest_point(alloc, self.program, self.bounds, self.vars())?;
        followed(alloc, outer, values)
    }

    /// The parameters and the loop values.
    pub(crate) fn reading_point(self, alloc: Global) -> Result<Vec<Sum>, Memory> {
        let values = self.values(alloc)?;
        self.with_params(alloc, values.as_slice())
    }

    /// The system of the instances: the assumptions, the nest's rows and those of the domain.
    pub(crate) fn system(self, alloc: Global) -> Result<System, Memory> {
        let mut names = nest_names(alloc, self.program, self.bounds.len())?;
        put_loop_names(alloc, &mut names, self.program, self.statement, "")?;
        let mut system = System::new(alloc, names);
        push_nest(alloc, &mut system, self.program, self.bounds)?;
        let rows = self.within(alloc, loops_of(self.program, self.statement))?;
        system.push_all(alloc, rows.as_slice(), Says::Reader)?;
        let point = self.reading_point(alloc)?;
        let guards = guards_of(self.program, self.statement);
        let rows = put_all(alloc, self.vars(), guards, point.as_slice())?;
        system.push_all(alloc, rows.as_slice(), Says::Reader)?;
        Ok(system)
    }

    /// The rows which say that the loop values are within bounds.
    pub(crate) fn within(self, alloc: Global, bounds: &[(Form, Form)]) -> Result<Vec<Sum>, Memory> {
        let params = parameters(alloc, self.program, self.vars())?;
        let values = self.values(alloc)?;
        bound_rows(
            alloc,
            self.vars(),
            bounds,
            params.as_slice(),
            values.as_slice(),
        )
    }
}
