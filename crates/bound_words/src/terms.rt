//! Terms in words.

use crate::leading::{write_greatest, write_worth};
use crate::reads::Source;
use affine_form::Memory;
use iolb_check::{Term, Value};
use joint_partition::{Joint, JointFamily, Part};
use k_partition::PartitionBound;
use plain_pages::Page;
use poly_tree::Poly;
use wavefront::{Cold, Wavefront};

/// Writes the families of a joint term: the group of each, and how many labels a word has in it.
fn write_families(page: &mut Page, families: &[JointFamily]) -> Result<(), Memory> {
    for (number, family) in families.iter().enumerate() {
        let (group, labels) = (family.group, family.labels.len());
        page.line(format!(in page.alloc();
            "    family {number}, in group {group}; labels of a word at most: {labels}"
        )?.as_str())?;
    }
    Ok(())
}

impl Source<'_> {
    /// Writes a polynomial of the parameters.
    fn write_poly(self, page: &mut Page, poly: &Poly) -> Result<(), Memory> {
        let text = poly.text(page.alloc(), self.program.params())?;
        page.write_bytes(text.as_slice())?;
        Ok(())
    }

    /// Writes what a cold term is worth, and why.
    fn write_cold(self, page: &mut Page, cold: &Cold, count: &Poly) -> Result<(), Memory> {
        page.text("  ")?;
        self.write_poly(page, count)?;
        page.line(" loads of inputs, each read before anything writes its cell:")?;
        page.text("    ")?;
        self.write_read(page, cold.statement, cold.read)?;
        page.line("")?;
        Ok(())
    }

    /// Writes the numbers of a term's stretches, which compute what this word says.
    fn write_stretches(
        self,
        page: &mut Page,
        points: &str,
        bound: &PartitionBound,
    ) -> Result<(), Memory> {
        let (a, b, q) = (bound.a, bound.b, bound.q);
        let (den, num, m) = (bound.den, bound.num, bound.m);
        page.line(format!(in page.alloc();
            "    a stretch with T = {a}*S + {b} loads of them computes at most U of these {points},"
        )?.as_str())?;
        page.line(format!(in page.alloc();
            "    the greatest U with {den}*U^{q} <= {num}*(S + T)^{m}: T for each U of them but the last,"
        )?.as_str())?;
        page.text("    less ")?;
        self.write_poly(page, &bound.credits)?;
        page.line(" credited")?;
        write_worth(page, self.program.params(), bound)
    }

    /// Writes what a partition term is worth, and why.
    fn write_partition(
        self,
        page: &mut Page,
        statement: u16,
        bound: &PartitionBound,
    ) -> Result<(), Memory> {
        page.text("  loads of words that ")?;
        self.write_poly(page, &bound.count)?;
        page.line(" instances use:")?;
        page.text("    ")?;
        self.write_statement(page, statement)?;
        page.line("")?;
        self.write_stretches(page, "instances", bound)
    }

    /// Writes the parts of a joint term, each with its statement.
    fn write_parts(self, page: &mut Page, parts: &[Part]) -> Result<(), Memory> {
        for (number, part) in parts.iter().enumerate() {
            page.text(format!(in page.alloc(); "    part {number}: ")?.as_str())?;
            self.write_statement(page, part.statement)?;
            page.line("")?;
        }
        Ok(())
    }

    /// Writes what a joint term is worth, and why.
    fn write_joint(
        self,
        page: &mut Page,
        joint: &Joint,
        bound: &PartitionBound,
    ) -> Result<(), Memory> {
        page.text("  loads of words that ")?;
        self.write_poly(page, &bound.count)?;
        page.line(" images of instances use:")?;
        self.write_parts(page, joint.parts.as_slice())?;
        write_families(page, joint.families.as_slice())?;
        self.write_stretches(page, "images", bound)
    }

    /// Writes what a wavefront term is worth, and why.
    fn write_front(
        self,
        page: &mut Page,
        front: &Wavefront,
        pairs: &Poly,
        outer: &Poly,
    ) -> Result<(), Memory> {
        page.text("  ")?;
        self.write_poly(page, pairs)?;
        page.text(" loads, less S for each of ")?;
        self.write_poly(page, outer)?;
        page.line(" computations between, of words that stand while those are made:")?;
        page.text("    ")?;
        self.write_read(page, front.user.statement, front.read)?;
        page.text(", after ")?;
        self.write_statement(page, front.vertex.statement)?;
        page.line("")?;
        page.text("    for great parameters about ")?;
        write_greatest(page, self.program.params(), pairs)?;
        page.line("")?;
        Ok(())
    }

    /// Writes what a term is worth, and why.
    pub(crate) fn write_term(
        self,
        page: &mut Page,
        term: &Term,
        value: &Value,
    ) -> Result<(), Memory> {
        match (term, value) {
            (Term::Cold(cold), Value::Cold(count)) => self.write_cold(page, cold, count),
            (Term::Joint(joint), Value::Joint(bound)) => self.write_joint(page, joint, bound),
            (Term::Partition(partition), Value::Partition(bound)) => {
                self.write_partition(page, partition.statement, bound)
            }
            (Term::Wavefront(front), Value::Wavefront { pairs, outer }) => {
                self.write_front(page, front, pairs, outer)
            }
            _ => Ok(()),
        }
    }
}
