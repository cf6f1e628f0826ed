//! What a boundary between two levels of memory sees of the moves.

ghost use Rattle.memory_levels.specs.Climbs.{CompleteOrUnfinished, FirstIllegalIsOne, FirstUnfinishedIsOne, LegalOrIllegal};
ghost use Rattle.memory_levels.specs.MovesText.{MovesOrFault, TextsHaveOneFault, TextsHaveOneList};
ghost use Rattle.memory_levels.specs.Seen.{BoundsHoldAtLevels, SeenAreAllowed, SeenIsComplete, SeenLoads, SeenStores};

/// Laws of what a boundary sees of moves over levels of memory that are allowed: they are moves of the game of one fast memory
/// that holds as many words as the levels up to the boundary together, allowed there; complete where the moves over the levels
/// are; and with as many loads as words are brought over the boundary, and as many stores as words are sent over it. (Savage
/// 1995, after Hong and Kung 1981.)
pub fn boundaries_see_pebblings()
    ensures allowed { SeenAreAllowed }
    ensures complete { SeenIsComplete }
    ensures loads { SeenLoads }
    ensures stores { SeenStores }
{}

/// A law: a bound on the loads of a program holds at each level of a memory. At all admitted parameter values, and for fast levels of
/// any capacities of at least 1, every complete play brings at least as many words over each boundary as the bound's value
/// says for one fast memory that holds as much as the levels up to it together.
pub fn bounds_hold_at_levels()
    ensures { BoundsHoldAtLevels }
{}

/// Laws of texts of moves: bytes are the lines of one list of moves, or have one first line that is none of a move.
pub fn texts_of_moves_are_exact()
    ensures moves { TextsHaveOneList }
    ensures fault { TextsHaveOneFault }
    ensures apart { MovesOrFault }
{}

/// Laws of plays: moves have one first move that isn't allowed, or all are; and what they leave has one least instance that isn't
/// finished, or the play is complete.
pub fn plays_have_one_answer()
    ensures illegal { FirstIllegalIsOne }
    ensures legal { LegalOrIllegal }
    ensures unfinished { FirstUnfinishedIsOne }
    ensures complete { CompleteOrUnfinished }
{}
