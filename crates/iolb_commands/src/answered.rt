//! What a command is answered with.

use tile_sched::Play;

/// What is written where a command is done.
#[derive(Drop)]
pub(crate) enum Answer {
    /// A text, by one write.
    Text(Vec<u8>),
    /// The lines of a play, each by one write.
    Lines(Play),
    /// The text of a certificate, and for the standard error that of its bound, each by one write.
    Bound {
        certificate: Vec<u8>,
        bound: Vec<u8>,
    },
}
