//! The vertices whose words stand in cells.

ghost use Rattle.std.specs.Prelude.{◌≡◌, ◌+◌, ◌<◌, ◌≤◌, ◌^◌, ◌∷◌, [], List, Option, None as Nothing, ℕ, length, map, IfOk, OnOk};
ghost use Rattle.std.specs.List.{AllByRecursion};
ghost use Rattle.iolb_model.specs.Source.{cell_of, Cell as ModelCell};
ghost use Rattle.affine_form.specs.Form.{IsSmall};
ghost use Rattle.affine_program.specs.Parts.{access_of};
ghost use Rattle.loop_graph.specs.Cells.{cell_view, Fits};
ghost use Rattle.loop_graph.specs.Known.{is_newest, known_vertex, source_by, AreKnown, AreRead, ArePreceded, KnowsNothing, KnowsSame, Puts};
ghost use Rattle.iolb_model.specs.declared.limits.TheConstants.{VALUE_SIZE};

use crate::cells::{Cell, cell_at};
use affine_form::Memory;
use affine_program::Reference;
use std::alloc::Global;
use std::collections::HashMap;

/// Where the reads of a program are gone through: for each cell that was written its last writer, for each other one that
/// was read its input vertex, and how many inputs there are. The newest vertex stands before the map of the others, since a
/// cell that is written is often the next to be read and written.
#[derive(Drop)]
pub(crate) struct Known {
    pub(crate) newest: Option<(Cell, u32)>,
    pub(crate) others: HashMap<Cell, u32>,
    pub(crate) inputs: u32,
}

impl Known {
    /// Nothing was read or written.
    pub(crate) fn new(alloc: Global) -> Known
        ensures { KnowsNothing result }
    {
        Known {
            newest: None,
            others: HashMap::new(alloc),
            inputs: 0,
        }
    }

    /// Whether a cell is that of the newest vertex.
    fn is_newest(&self, cell: &Cell) -> bool
        ensures { result ≡ is_newest self.now.newest cell.now }
    {
        match &self.newest {
            Some(entry) => entry.0 == *cell,
            None => false,
        }
    }

    /// The vertex whose word stands in a cell, if it is known.
    fn vertex(&self, cell: &Cell) -> Option<u32>
        ensures { result ≡ known_vertex self.now cell.now }
    {
        match &self.newest {
            Some(entry) if entry.0 == *cell => Some(entry.1),
            Some(_) | None => self.others.get(cell).copied(),
        }
    }

    /// Puts the newest vertex among the others.
    fn retire(&mut self) -> Result<(), Memory>
        ensures none { OnOk result (self.new.newest ≡ Nothing) }
        ensures same { OnOk result (KnowsSame self.old self.new) }
        ensures inputs { OnOk result (self.new.inputs ≡ self.old.inputs) }
    {
        if let Some((cell, vertex)) = self.newest.take() {
            self.others.insert(cell, vertex)?;
        }
        Ok(())
    }

    /// Puts the word of a vertex into a cell.
    fn put(&mut self, cell: Cell, vertex: u32) -> Result<(), Memory>
        ensures puts { OnOk result (Puts self.old self.new cell vertex) }
        ensures inputs { OnOk result (self.new.inputs ≡ self.old.inputs) }
    {
        if !self.is_newest(&cell) {
            self.retire()?;
        }
        self.newest = Some((cell, vertex));
        Ok(())
    }

    /// The vertex of a cell that is read: its last writer, or an input, which is put behind the others if it is new.
    fn read(&mut self, cell: Cell, instances: u32) -> Result<u32, Memory>
        requires { instances + self.old.inputs < 2 ^ 31 }
        ensures read { (writer : ModelCell → Option ℕ) (before : List ModelCell) → AreKnown instances writer before self.old → IfOk result (λ vertex. AreRead instances writer before (source_by writer (cell_view cell) ∷ []) self.new (vertex ∷ [])) }
        ensures grows { OnOk result (self.new.inputs ≤ self.old.inputs + 1) }
    {
        if let Some(vertex) = self.vertex(&cell) {
            return Ok(vertex);
        }
        let vertex = instances + self.inputs;
        self.put(cell, vertex)?;
        self.inputs += 1;
        Ok(vertex)
    }

    /// The vertices of the cells of references at a point, which are read one after the other: each once, where it first stands.
    pub(crate) fn read_all(
        &mut self,
        alloc: Global,
        references: &[Reference],
        point: &[i128],
        instances: u32,
    ) -> Result<Vec<u32>, Memory>
        requires fit { AllByRecursion (Fits (length point.now)) references.now }
        requires small { AllByRecursion (IsSmall VALUE_SIZE) point.now }
        requires few { instances + self.old.inputs + length references.now < 2 ^ 31 }
        ensures preceded { (writer : ModelCell → Option ℕ) (before : List ModelCell) → AreKnown instances writer before self.old
            → IfOk result (λ preds. ArePreceded instances writer before (map (source_by writer) (map (λ reference. cell_of (access_of reference) point.now) references.now)) self.new preds.items) }
        ensures grows { OnOk result (self.new.inputs ≤ self.old.inputs + length references.now) }
    {
        let mut preds = Vec::with_capacity(alloc, references.len())?;
        for reference in references {
            let vertex = self.read(cell_at(reference, point), instances)?;
            if !preds.as_slice().contains(&vertex) {
                preds.push(vertex)?;
            }
        }
        Ok(preds)
    }

    /// The instance at a place writes a cell: the vertex whose word stood in it, if that is known.
    pub(crate) fn write(&mut self, cell: Cell, place: u32) -> Result<Option<u32>, Memory>
        ensures before { IfOk result (λ before. before ≡ known_vertex self.old cell) }
        ensures puts { OnOk result (Puts self.old self.new cell place) }
        ensures inputs { OnOk result (self.new.inputs ≡ self.old.inputs) }
    {
        let before = self.vertex(&cell);
        self.put(cell, place)?;
        Ok(before)
    }
}
