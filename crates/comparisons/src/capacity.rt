//! Numbers of words of fast memory.

ghost use Rattle.std.specs.Prelude.{◌≡◌, ◌≤◌, ◌<◌, ◌^◌, ◌↔◌, IsSome, IfSome};

/// A number of words of fast memory: at least 1, and below 2^63.
#[derive(Clone, Copy, Debug, PartialEq, Eq)]
pub struct Capacity {
    pub words: u64,
    pub ghost some: { 1 ≤ words },
    pub ghost few: { words < 2 ^ 63 },
}

impl Capacity {
    /// So many words, where that is a capacity.
    pub fn new(words: u64) -> Option<Capacity>
        ensures valid { IsSome result ↔ ((1 ≤ words) × (words < 2 ^ 63)) }
        ensures value { IfSome result (λ capacity. capacity.words ≡ words) }
    {
        if words < 1 || words >= 1 << 63 {
            None
        } else {
            Some(Capacity { words })
        }
    }
}
