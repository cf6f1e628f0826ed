//! That schedules and replays are one.

ghost use Rattle.tile_sched.specs.ReplayLaws.{PlayedOrdersAreOne, UnplayedAreOne, PlayedOrRefused, PlaysAreComplete};
ghost use Rattle.tile_sched.specs.OneSchedule.{OrdersAreOne, TextsHaveOneSchedule};

use pebble_game::graph::computation_graphs_are_well_formed;
use pebble_replay::what_is_played_is_complete;

/// A law: a text has one schedule of a program or one fault, and a schedule has one order.
pub fn schedules_are_one()
    ensures texts { TextsHaveOneSchedule }
    ensures orders { OrdersAreOne }
{}

/// A law: of a program, a schedule, sizes and a number of red pebbles, the order of a schedule that can be played is one, and
/// what plays it is a complete pebbling; one that can't be played is refused in one way; and none is both.
pub fn replays_are_one()
    ensures orders { PlayedOrdersAreOne }
    ensures refusals { UnplayedAreOne }
    ensures apart { PlayedOrRefused }
    ensures complete { PlaysAreComplete }
{
    computation_graphs_are_well_formed();
    what_is_played_is_complete();
    schedules_are_one();
}
