//! Systems in words.

use crate::sums::Sum;
use affine_form::{Form, Memory, Multipliers};
use plain_pages::Page;
use std::alloc::Global;

/// What a row of a system says.
#[derive(Clone, Copy, Debug, PartialEq, Eq)]
pub enum Says {
    Assumed,
    Reader,
    Test,
    Writer,
    Cell,
    After,
    Before,
    Nest,
    Region,
    Walk,
    Same,
    Image,
    Split,
}

/// How many rows in a row say the same.
#[derive(Clone, Copy)]
pub(crate) struct Section {
    pub(crate) count: usize,
    pub(crate) says: Says,
}

/// A system: the names of its variables, and its rows with what each says.
#[derive(Drop)]
pub struct System {
    names: Vec<Vec<u8>>,
    rows: Vec<(Sum, Says)>,
}

impl Says {
    /// What is said, in words.
    fn words(self) -> &'static str {
        match self {
            Says::Assumed => "assumed",
            Says::Reader => "the reader is an instance",
            Says::Test => "a test on the way",
            Says::Writer => "the writer is an instance",
            Says::Cell => "it writes the cell",
            Says::After => "it comes after the source",
            Says::Before => "it comes before the reader",
            Says::Nest => "the nest",
            Says::Region => "the region",
            Says::Walk => "a test of the walk",
            Says::Same => "both are one word",
            Says::Image => "both have one image",
            Says::Split => "a test of the split",
        }
    }
}

/// What the row of this number says; what the last section says for one behind all.
fn says_at(sections: &[Section], number: usize) -> Says {
    let mut behind: usize = 0;
    let mut says = Says::Assumed;
    for section in sections {
        behind = behind.saturating_add(section.count);
        says = section.says;
        if number < behind {
            return says;
        }
    }
    says
}

impl System {
    /// A system without rows, over variables of these names.
    pub fn new(alloc: Global, names: Vec<Vec<u8>>) -> System {
        let rows = Vec::new(alloc);
        System { names, rows }
    }

    /// The system of these rows, which say what their sections do.
    pub(crate) fn of(
        alloc: Global,
        names: Vec<Vec<u8>>,
        rows: &[Form],
        sections: &[Section],
    ) -> Result<System, Memory> {
        let vars = names.len();
        let mut system = System::new(alloc, names);
        for (number, row) in rows.iter().enumerate() {
            system.push(Sum::of(alloc, vars, row)?, says_at(sections, number))?;
        }
        Ok(system)
    }

    /// How many variables there are.
    pub fn vars(&self) -> usize {
        self.names.len()
    }

    /// The names of the variables.
    pub fn names(&self) -> &[Vec<u8>] {
        self.names.as_slice()
    }

    /// The rows, with what each says.
    pub fn rows(&self) -> &[(Sum, Says)] {
        self.rows.as_slice()
    }

    /// Puts a row behind the others.
    pub fn push(&mut self, row: Sum, says: Says) -> Result<(), Memory> {
        self.rows.push((row, says))?;
        Ok(())
    }

    /// Puts rows that say the same behind the others.
    pub fn push_all(&mut self, alloc: Global, rows: &[Sum], says: Says) -> Result<(), Memory> {
        for row in rows {
            self.push(row.times(alloc, 1)?, says)?;
        }
        Ok(())
    }

    /// A copy of the system.
    pub fn try_clone(&self, alloc: Global) -> Result<System, Memory> {
        let mut copy = System::new(alloc, copies(alloc, self.names())?);
        for (row, says) in self.rows() {
            copy.push(row.times(alloc, 1)?, *says)?;
        }
        Ok(copy)
    }

    /// Writes the names of the variables.
    fn write_names(&self, page: &mut Page) -> Result<(), Memory> {
        page.text("variables:")?;
        for name in self.names() {
            page.text(" ")?;
            page.write_bytes(name.as_slice())?;
        }
        page.line("")?;
        Ok(())
    }

    /// Writes the rows: the number of each, what it is, and what that says.
    fn write_rows(&self, page: &mut Page) -> Result<(), Memory> {
        let alloc = page.alloc();
        for (number, (row, says)) in self.rows().iter().enumerate() {
            page.text(format!(in alloc; "row {number}: ")?.as_str())?;
            row.write(page, self.names())?;
            page.text(" >= 0, ")?;
            page.line(says.words())?;
        }
        Ok(())
    }

    /// Writes a line that ends with a sum.
    fn write_sum(&self, page: &mut Page, said: &str, sum: &Sum) -> Result<(), Memory> {
        page.text(said)?;
        sum.write(page, self.names())?;
        page.line("")?;
        Ok(())
    }

    /// What multipliers sum to, as far as the rows that they name are there.
    fn sum_of(&self, alloc: Global, shown: &Multipliers) -> Result<Sum, Memory> {
        let mut sum = Sum::new(alloc, self.vars(), i128::from(shown.m0()))?;
        for (number, weight) in shown.m() {
            if let Some((row, _)) = self.rows.get(usize::from(*number)) {
                sum.add_sum(row, i128::from(*weight));
            }
        }
        Ok(sum)
    }

    /// Writes which rows multipliers name that aren't there.
    fn write_absent(&self, page: &mut Page, shown: &Multipliers) -> Result<(), Memory> {
        let alloc = page.alloc();
        for (row, _) in shown.m() {
            if usize::from(*row) >= self.rows.len() {
                page.line(format!(in alloc; "there is no row {row}")?.as_str())?;
            }
        }
        Ok(())
    }

    /// What is missing of as many times a goal as multipliers say.
    fn missing(&self, alloc: Global, goal: &Sum, shown: &Multipliers) -> Result<Sum, Memory> {
        let wanted = goal.times(alloc, i128::from(shown.c()))?;
        wanted.less(alloc, &self.sum_of(alloc, shown)?)
    }

    /// Whether multipliers sum to as many times a goal as they say.
    pub fn is_shown(&self, alloc: Global, goal: &Sum, shown: &Multipliers) -> Result<bool, Memory> {
        Ok(self.missing(alloc, goal, shown)?.is_zero())
    }

    /// Writes the system: its variables, its rows with their numbers and what each says, the goal, what the multipliers sum to, and
    /// the difference of that from as many times the goal as they say.
    pub fn write(&self, page: &mut Page, goal: &Sum, shown: &Multipliers) -> Result<(), Memory> {
        let alloc = page.alloc();
        self.write_names(page)?;
        self.write_rows(page)?;
        self.write_sum(page, "the goal, to be at least 0: ", goal)?;
        self.write_absent(page, shown)?;
        let sum = self.sum_of(alloc, shown)?;
        self.write_sum(page, "the multipliers sum to: ", &sum)?;
        let scale = shown.c();
        if scale > 1 {
            let said = format!(in alloc; "{scale} times the goal: ")?;
            let wanted = goal.times(alloc, i128::from(scale))?;
            self.write_sum(page, said.as_str(), &wanted)?;
        }
        let missing = self.missing(alloc, goal, shown)?;
        self.write_sum(page, "what is missing: ", &missing)
    }
}

/// Copies of names.
fn copies(alloc: Global, names: &[Vec<u8>]) -> Result<Vec<Vec<u8>>, Memory> {
    let mut all = Vec::new(alloc);
    for name in names {
        all.push(Vec::from_slice(alloc, name.as_slice())?)?;
    }
    Ok(all)
}
