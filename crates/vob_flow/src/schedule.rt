//! In which order sets are looked at, and which of them draw from each.
ghost use Rattle.std.specs.Prelude.{◌≡◌, length, IfOk};
ghost use Rattle.vob_flow.specs.Schedules.{ArePlaces, IsSchedule};
ghost use Rattle.vob_flow.specs.Turns.{IsOrder};

use crate::order::postorder;
use std::alloc::{AllocError, Global};
use vob_rows::Graph;

/// In which order sets are looked at, the place of each set in it, and which sets draw from each.
#[derive(Drop)]
pub(crate) struct Schedule {
    pub order: Vec<usize>,
    pub places: Vec<usize>,
    pub users: Graph,
}

/// Returns the place of each set in an order.
fn places_of(alloc: Global, count: usize, order: &[usize]) -> Result<Vec<usize>, AllocError>
    requires { IsOrder count order.now }
    ensures { IfOk result (λ places. ArePlaces count order.now places.items) }
{
    let mut places = Vec::with_capacity(alloc, count)?;
    places.resize(count, 0)?;
    for at in 0..order.len() {
        places[order[at]] = at;
    }
    Ok(places)
}

/// Returns how the sets at the nodes of a graph are looked at. Fails if memory runs out.
pub(crate) fn schedule_of(alloc: Global, graph: &Graph) -> Result<Schedule, AllocError>
    ensures { IfOk result (IsSchedule graph.now) }
{
    let order = postorder(alloc, graph)?;
    let places = places_of(alloc, graph.nodes(), &order)?;
    let users = graph.reversed(alloc)?;
    Ok(Schedule {
        order,
        places,
        users,
    })
}
