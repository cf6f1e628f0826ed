//! Computation graphs.

ghost use Rattle.std.specs.Prelude.{◌≡◌, ◌<◌, map};
ghost use Rattle.iolb_model.specs.Game.{marked, predecessors_at};
ghost use Rattle.pebble_game.specs.Graphs.{IsGraph, graph_with, ComputationGraphsAreWellFormed};

use std::marker::Model;

/// A computation graph (Hong and Kung 1981): the instances are the vertices 0, 1, .. in the order of execution, and the
/// inputs follow. Predecessors are vertices, no two of an instance are the same, and those that are instances come before it.
/// Instances and inputs together are fewer than 2^32.
#[derive(Debug, Drop)]
pub struct Graph {
    instances: u32,
    inputs: u32,
    preds: Vec<Vec<u32>>,
    last: Vec<bool>,
}

impl Model for Graph {
    ghost use Rattle.iolb_model.specs.Graph.{ComputationGraph};
    ghost use Rattle.pebble_game.specs.Graphs.{IsGraph, graph_with};

    ghost Value = { ComputationGraph };

    ghost view = { λ graph. graph_with graph.instances graph.inputs graph.preds.items graph.last.items };

    ghost invariant = { λ graph. IsGraph (graph_with graph.instances graph.inputs graph.preds.items graph.last.items) };
}

impl Graph {
    /// The graph of so many instances and inputs, with the predecessors of each instance, in the order of its reads, and a
    /// mark for each instance, which is true for last writers.
    pub fn new(instances: u32, inputs: u32, preds: Vec<Vec<u32>>, last: Vec<bool>) -> Graph
        requires { IsGraph (graph_with instances inputs preds.items last.items) }
        ensures { result ≡ graph_with instances inputs preds.items last.items }
    {
        Graph {
            instances,
            inputs,
            preds,
            last,
        }
    }

    /// The number of instances.
    pub fn instances(&self) -> u32
        ensures instances { result ≡ self.now.instances }
        ensures graph { IsGraph self.now }
    {
        self.instances
    }

    /// The number of input cells that are read.
    pub fn inputs(&self) -> u32
        ensures inputs { result ≡ self.now.inputs }
        ensures graph { IsGraph self.now }
    {
        self.inputs
    }

    /// For each instance the vertices of the sources of its reads, each once, in the order of the reads.
    pub fn preds(&self) -> &[Vec<u32>]
        ensures preds { map (λ vertices. vertices.items) result.now ≡ self.now.predecessors }
        ensures graph { IsGraph self.now }
    {
        self.preds.as_slice()
    }

    /// The predecessors of an instance.
    pub fn preds_of(&self, instance: u32) -> &[u32]
        requires { instance < self.now.instances }
        ensures preds { result.now ≡ predecessors_at self.now instance }
        ensures graph { IsGraph self.now }
    {
        self.preds[instance as usize].as_slice()
    }

    /// Whether an instance is a last writer.
    pub fn is_last(&self, instance: u32) -> bool
        requires { instance < self.now.instances }
        ensures { result ≡ marked self.now.last_writers instance }
    {
        self.last[instance as usize]
    }

    /// For each instance whether it is a last writer.
    pub fn last(&self) -> &[bool]
        ensures last { result.now ≡ self.now.last_writers }
        ensures graph { IsGraph self.now }
    {
        self.last.as_slice()
    }
}

/// A law: the computation graph of every program at any parameter values is well formed.
pub fn computation_graphs_are_well_formed()
    ensures { ComputationGraphsAreWellFormed }
{}
