//! Why a call isn't answered as it was meant.

use affine_form::Memory;
use iolb_host::FileFault;
use plain_pages::Page;
use std::alloc::{AllocError, AllocFailed, Global};

/// Why a call isn't answered as it was meant.
#[derive(Drop)]
pub(crate) enum Stop {
    /// The words ask for nothing that the program does.
    Words,
    /// The file that the word at this place names wasn't read.
    File { place: usize, fault: FileFault },
    /// Something was found wrong, which the page says.
    Wrong(Page),
    /// There was no memory.
    Memory,
}

impl From<Memory> for Stop {
    ghost use Rattle.std.specs.Prelude.{◌≡◌};
    ghost use Rattle.explain_commands.specs.declared.stop.Stop.TheVariants.{Memory};

    ghost from_gives = { λ _ e. e ≡ Memory };

    fn from(_error: Memory) -> Stop {
        Stop::Memory
    }
}

impl From<AllocError> for Stop {
    ghost use Rattle.std.specs.Prelude.{◌≡◌};
    ghost use Rattle.explain_commands.specs.declared.stop.Stop.TheVariants.{Memory};

    ghost from_gives = { λ _ e. e ≡ Memory };

    fn from(_error: AllocError) -> Stop {
        Stop::Memory
    }
}

impl<T: Drop> From<AllocFailed<T>> for Stop {
    ghost use Rattle.std.specs.Prelude.{◌≡◌};
    ghost use Rattle.explain_commands.specs.declared.stop.Stop.TheVariants.{Memory};

    ghost from_gives = { λ _ e. e ≡ Memory };

    fn from(_error: AllocFailed<T>) -> Stop {
        Stop::Memory
    }
}

/// The stop where what these texts say together, on one line, was found wrong.
pub(crate) fn wrong(alloc: Global, text: &str, rest: &str) -> Stop {
    let mut page = Page::new(alloc);
    match page.text(text) {
        Ok(()) => {}
        Err(_) => return Stop::Memory,
    }
    match page.line(rest) {
        Ok(()) => Stop::Wrong(page),
        Err(_) => Stop::Memory,
    }
}
