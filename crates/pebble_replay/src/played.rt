//! What a replay gives.

use iolb_model::game::Move;

/// The moves that play an order, and how many of them load, store and compute.
#[derive(Debug, Drop)]
pub struct Replay {
    pub moves: Vec<Move>,
    pub loads: u64,
    pub stores: u64,
    pub computes: u64,
}
