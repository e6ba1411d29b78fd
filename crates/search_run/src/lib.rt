// The run of a search (document 01: the search log): one node after the other is chosen, logged and gone on from; and the way back over the
// arcs that gave the times. What a node is and where it leads is said in `search_junctions`, whose functions it calls.
#![tactic(auto)]

ghost use Rattle.std.specs.Prelude.{◌≡◌, ◌*◌, ◌<◌, ◌≤◌, eqb, length};
ghost use Rattle.model.specs.Layout.{road_size};
ghost use Rattle.model.specs.State.{first};
ghost use Rattle.search_labels.specs.Ways.{arcs_back, way_of};
ghost use Rattle.search_junctions.specs.State.{given};
ghost use Rattle.search_junctions.specs.Rooms.{SameRoom};
ghost use Rattle.search_labels.specs.Labelling.{labels_in};
ghost use Rattle.search_run.specs.Runs.{Advances, LendsRoom, back_in, written};

use network::{Time, TimeWord};
use search_junctions::{Atlas, ByTail, Trip};
use search_labels::{room_time, via_of};
use search_queue::{Room, SETTLED};

// How many nodes are logged (document 01: count), and whether the log is complete.
#[derive(Clone, Copy)]
pub struct Progress {
    pub count: u32,
    pub complete: bool,
}

// Logs one candidate after the other, until the goal is logged, no candidate is left or the budget is used up. Elapsed holds the times of
// the logged, the room the arcs that gave them. To go on later is to run again with a larger budget: the log begins with the same nodes.
pub fn advance(
    trip: Trip,
    budget: u32,
    atlas: &Atlas,
    by_tail: ByTail,
    estimates: &mut [TimeWord],
    elapsed: &mut [TimeWord],
    log: &mut [u32],
    room: &mut Room,
) -> Progress
    requires { LendsRoom (given trip atlas.now) by_tail.leaving.now by_tail.groups.now
        trip.start.0 trip.target.0 (written estimates elapsed room.old.words log) × (room.old.n ≡ trip.sizes.n) }
    ensures advanced { Advances (given trip atlas.now) by_tail.entry.leaving.now by_tail.entry.groups.now
        trip.start.0 trip.target.0 budget (written estimates.entry elapsed.entry room.old.words log.entry)
        (written estimates.exit elapsed.exit room.new.words log.exit) result.count result.complete }
    ensures same { SameRoom room.old room.new }
{
    let first = trip.ask_start(atlas, estimates);
    trip.begin(room, first);
    elapsed.fill(Time::NONE.0);
    let most = budget.min(trip.sizes.n);
    let mut count: u32 = 0;
    let mut next = room.choose();
    // a `while`: the queue tells the next node only after the turn
    while let Some(v) = next {
        if count == most {
            break;
        }
        log[count as usize] = v;
        count += 1;
        let from = room_time(room, v);
        elapsed[v as usize] = from.0;
        room.put(v, SETTLED);
        if trip.is_goal(v) {
            next = None;
        } else {
            let group = by_tail.group(v);
            trip.ask(atlas, estimates, group);
            trip.relax(&atlas.ways, estimates, room, group, from);
            next = room.choose();
        }
    }
    Progress {
        count,
        complete: next.is_none(),
    }
}

// ---- the way back (what is asked is of trip, atlas and words together, which search keeps apart: no type of one has it)

// How many arcs lead from where the way begins to its end.
fn arcs_back(trip: Trip, atlas: &Atlas, words: &[u64]) -> u32
    requires { (trip.target.0 < trip.sizes.n) × (3 * trip.sizes.n ≤ length words.now)
        × (road_size * trip.sizes.m ≤ length atlas.now.ways.roads.now) }
    ensures { (result ≡ arcs_back (λ u. eqb u trip.start.0)
        (back_in atlas.now.ways.roads.now words.now trip.sizes.n trip.sizes.m) trip.sizes.n trip.target.0)
        × (result ≤ trip.sizes.n) }
{
    let n = trip.sizes.n;
    let mut u = trip.target.0;
    for k in 0..n {
        if u == trip.start.0 {
            return k;
        }
        u = trip.step_back(atlas, words, u);
    }
    n
}

// Writes the k arcs that lead to the end, back to front.
fn write_back(trip: Trip, atlas: &Atlas, words: &[u64], k: u32, route: &mut [u32])
    requires { (trip.target.0 < trip.sizes.n) × (3 * trip.sizes.n ≤ length words.now)
        × (road_size * trip.sizes.m ≤ length atlas.now.ways.roads.now) × (k ≤ length route.old) }
    ensures { route.new ≡ first (way_of (labels_in trip.sizes.n words.now).vias
        (back_in atlas.now.ways.roads.now words.now trip.sizes.n trip.sizes.m) k trip.target.0) route.old }
{
    let mut u = trip.target.0;
    for j in (0..k as usize).rev() {
        route[j] = via_of(words, trip.sizes.n, u);
        u = trip.step_back(atlas, words, u);
    }
}

// The route from the trip's start to its target, forwards, first in the part lent; answered with its number of arcs.
pub fn way_back(trip: Trip, atlas: &Atlas, words: &[u64], route: &mut [u32]) -> u32
    requires { (trip.target.0 < trip.sizes.n) × (3 * trip.sizes.n ≤ length words.now)
        × (road_size * trip.sizes.m ≤ length atlas.now.ways.roads.now) × (trip.sizes.n ≤ length route.old) }
    ensures { (result ≡ arcs_back (λ u. eqb u trip.start.0)
        (back_in atlas.now.ways.roads.now words.now trip.sizes.n trip.sizes.m) trip.sizes.n trip.target.0)
        × (route.new ≡ first (way_of (labels_in trip.sizes.n words.now).vias
        (back_in atlas.now.ways.roads.now words.now trip.sizes.n trip.sizes.m) result trip.target.0) route.old) }
{
    let k = arcs_back(trip, atlas, words);
    write_back(trip, atlas, words, k, route);
    k
}
