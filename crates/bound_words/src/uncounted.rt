//! What no term counts.

use crate::reads::Source;
use affine_form::Memory;
use dep_quast::Quast;
use iolb_check::{Branch, Certificate, Term};
use joint_partition::JointFamily;
use plain_pages::Page;

/// Whether there is a label for the number of a thing.
fn is_labelled<T>(labels: &[Option<T>], number: usize) -> bool {
    matches!(labels.get(number), Some(Some(_)))
}

impl Source<'_> {
    /// Whether there is a label for the cells of an array, or for the instances of a statement that writes it.
    fn has_label<C, N>(self, inputs: &[Option<C>], nodes: &[Option<N>], array: u16) -> bool {
        if is_labelled(inputs, usize::from(array)) {
            return true;
        }
        for (number, statement) in self.program.statements().iter().enumerate() {
            if statement.writes.array == array && is_labelled(nodes, number) {
                return true;
            }
        }
        false
    }

    /// Whether a family of a joint term has such a label in one of its labelings.
    fn is_word(self, family: &JointFamily, array: u16) -> bool {
        family.labels.as_slice().iter().any(|own| self.has_label(
            own.inputs.as_slice(),
            own.nodes.as_slice(),
            array,
        ))
    }

    /// Whether a term counts words of an array: inputs that are read, words of its families, or words that its user reads.
    fn counts(self, term: &Term, array: u16) -> bool {
        match term {
            Term::Cold(cold) => self.array_read(cold.statement, cold.read) == Some(array),
            Term::Joint(joint) => joint
                .families
                .as_slice()
                .iter()
                .any(|family| self.is_word(family, array)),
            Term::Partition(partition) => partition.families.as_slice().iter().any(
                |own| self.has_label(own.inputs.as_slice(), own.nodes.as_slice(), array),
            ),
            Term::Wavefront(front) => {
                self.array_read(front.user.statement, front.read) == Some(array)
            }
        }
    }

    /// Whether a statement reads an array.
    fn is_read(self, array: u16) -> bool {
        for statement in self.program.statements() {
            if statement
                .reads
                .as_slice()
                .iter()
                .any(|read| read.array == array)
            {
                return true;
            }
        }
        false
    }

    /// Whether a term of a branch counts words of an array.
    fn is_counted(self, branch: &Branch, array: u16) -> bool {
        branch
            .terms
            .as_slice()
            .iter()
            .any(|term| self.counts(term, array))
    }

    /// Writes the arrays that are read and of which no term of a branch counts a word.
    pub(crate) fn write_uncounted(self, page: &mut Page, branch: &Branch) -> Result<(), Memory> {
        for place in 0..self.program.arrays().len() {
            let Ok(array) = u16::try_from(place) else {
                return Ok(());
            };
            if self.is_read(array) && !self.is_counted(branch, array) {
                page.text("  no term counts words of ")?;
                self.write_array(page, Some(array))?;
                page.line("")?;
            }
        }
        Ok(())
    }

    /// Writes a read that has no source tree.
    fn write_blank(
        self,
        page: &mut Page,
        certificate: &Certificate,
        statement: u16,
        read: u16,
    ) -> Result<(), Memory> {
        if let Some(Quast::Blank) = certificate.quasts().tree(statement, read) {
            page.text("no source tree: ")?;
            self.write_read(page, statement, read)?;
            page.line("")?;
        }
        Ok(())
    }

    /// Writes the reads of a program that have no source tree.
    pub(crate) fn write_blanks(
        self,
        page: &mut Page,
        certificate: &Certificate,
    ) -> Result<(), Memory> {
        for (number, statement) in self.program.statements().iter().enumerate() {
            for read in 0..statement.reads.len() {
                if let (Ok(number), Ok(read)) = (u16::try_from(number), u16::try_from(read)) {
                    self.write_blank(page, certificate, number, read)?;
                }
            }
        }
        Ok(())
    }
}
