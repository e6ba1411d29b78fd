// The search of a go (document 01: the search log): a run whose budget never ends it, its total and its route. The two searches of a
// preview (document 02, A2): the total alone, twice.
#![tactic(auto)]

ghost use Rattle.std.specs.Prelude.{◌≡◌, ◌*◌, ◌≤◌};
ghost use Rattle.model.specs.Limits.{most_junctions};
ghost use Rattle.search_junctions.specs.Views.{met};
ghost use Rattle.search_junctions.specs.State.{given};
ghost use Rattle.search_run.specs.Runs.{Lends, written};
ghost use Rattle.search.specs.Searches.{FindsBoth, LendsBoth, LendsIn, Searches, seen_by, total_in};

use network::{JUNCTIONS, Time, TimeWord};
use search_junctions::{Atlas, ByTail, Trip, View};
use search_queue::{BLANK, Room};
use search_run::{advance, way_back};

// A search has a room of its own, three words for each of n junctions (search_labels). Of four rooms, for 256, 1,024, 2,560 and all
// junctions, it takes the smallest that is large enough: a fresh room is filled with blank words, and that takes time.
const WORDS: usize = 3;

const SMALL: usize = WORDS * 256;

const MIDDLE: usize = WORDS * 1024;

const LARGE: usize = WORDS * 2560;

const LARGEST: usize = WORDS * JUNCTIONS;

// The answer of a search: the total, the number of logged junctions (document 01: count), and of the route's roads, 0 without a total (a
// number beside it and not in it, as the words of an answer have them).
#[derive(Clone, Copy)]
pub struct Searched {
    pub total: Option<TimeWord>,
    pub count: u32,
    pub roads: u32,
}

// The search of a go, in a blank room.
fn search_in(
    trip: Trip,
    atlas: &Atlas,
    by_tail: ByTail,
    estimates: &mut [TimeWord],
    elapsed: &mut [TimeWord],
    route: &mut [u32],
    log: &mut [u32],
    room: &mut Room,
) -> Searched
    requires { LendsIn (given trip atlas.now) by_tail.leaving.now by_tail.groups.now
        trip.start.0 trip.target.0 (written estimates elapsed route log) room.old.words.now × (room.old.n ≡ trip.sizes.n) }
    ensures { Searches (given trip atlas.now) by_tail.entry.leaving.now by_tail.entry.groups.now
        trip.start.0 trip.target.0 (written estimates.entry elapsed.entry route.entry log.entry)
        (written estimates.exit elapsed.exit route.exit log.exit) (total_in result.total) result.count result.roads }
{
    // no junction is logged twice
    let budget = trip.sizes.n;
    let logged = advance(trip, budget, atlas, by_tail, estimates, elapsed, log, room);
    let total = Time(elapsed[trip.target.0 as usize]);
    if total.is_none() {
        return Searched {
            total: None,
            count: logged.count,
            roads: 0,
        };
    }
    let roads = way_back(trip, atlas, room.words, route);
    Searched {
        total: Some(total.0),
        count: logged.count,
        roads,
    }
}

// The search of a go in a room of so many words.
fn search_with<const ROOM: usize>(
    trip: Trip,
    atlas: &Atlas,
    by_tail: ByTail,
    estimates: &mut [TimeWord],
    elapsed: &mut [TimeWord],
    route: &mut [u32],
    log: &mut [u32],
) -> Searched
    requires { Lends (given trip atlas.now) by_tail.leaving.now by_tail.groups.now
        trip.start.0 trip.target.0 (written estimates elapsed route log) × (3 * trip.sizes.n ≤ ROOM) × (ROOM ≤ 3 * most_junctions) }
    ensures { Searches (given trip atlas.now) by_tail.entry.leaving.now by_tail.entry.groups.now
        trip.start.0 trip.target.0 (written estimates.entry elapsed.entry route.entry log.entry)
        (written estimates.exit elapsed.exit route.exit log.exit) (total_in result.total) result.count result.roads }
{
    let mut words = [BLANK; ROOM];
    let mut room = Room {
        words: &mut words,
        n: trip.sizes.n,
    };
    search_in(
        trip, atlas, by_tail, estimates, elapsed, route, log, &mut room,
    )
}

// The search of a go from the start to the target that was aimed at last.
pub fn search(
    trip: Trip,
    atlas: &Atlas,
    by_tail: ByTail,
    estimates: &mut [TimeWord],
    elapsed: &mut [TimeWord],
    route: &mut [u32],
    log: &mut [u32],
) -> Searched
    requires { Lends (given trip atlas.now) by_tail.leaving.now by_tail.groups.now
        trip.start.0 trip.target.0 (written estimates elapsed route log) }
    ensures { Searches (given trip atlas.now) by_tail.entry.leaving.now by_tail.entry.groups.now
        trip.start.0 trip.target.0 (written estimates.entry elapsed.entry route.entry log.entry)
        (written estimates.exit elapsed.exit route.exit log.exit) (total_in result.total) result.count result.roads }
{
    let words = WORDS * (trip.sizes.n as usize);
    if words <= SMALL {
        search_with::<SMALL>(trip, atlas, by_tail, estimates, elapsed, route, log)
    } else if words <= MIDDLE {
        search_with::<MIDDLE>(trip, atlas, by_tail, estimates, elapsed, route, log)
    } else if words <= LARGE {
        search_with::<LARGE>(trip, atlas, by_tail, estimates, elapsed, route, log)
    } else {
        search_with::<LARGEST>(trip, atlas, by_tail, estimates, elapsed, route, log)
    }
}

// ---- the two searches of a preview

// The totals of a preview, each none where there is no chain.
#[derive(Clone, Copy)]
pub struct TwoTotals {
    pub present: Option<TimeWord>,
    pub new: Option<TimeWord>,
}

// The total of a trip at its times, and at those of another view: one search after the other, each with its half of the work area in
// elapsed's place.
pub fn totals(
    trip: Trip,
    view: View,
    atlas: &Atlas,
    by_tail: ByTail,
    estimates: &mut [TimeWord],
    work: &mut [TimeWord],
) -> TwoTotals
    requires { LendsBoth (given trip atlas.now) by_tail.leaving.now by_tail.groups.now
        trip.start.0 trip.target.0 estimates.old work.old }
    ensures { FindsBoth (given trip atlas.now) (met (seen_by trip view) atlas.now.ways.access.now atlas.now.ways.live.now)
        by_tail.entry.leaving.now by_tail.entry.groups.now
        trip.start.0 trip.target.0 estimates.old estimates.new (total_in result.present) (total_in result.new) }
{
    let n = trip.sizes.n as usize;
    let mut route = [0u32; JUNCTIONS];
    let mut log = [0u32; JUNCTIONS];
    let present = search(
        trip,
        atlas,
        by_tail,
        estimates,
        &mut work[..n],
        &mut route,
        &mut log,
    );
    let other = Trip { view, ..trip };
    let new = search(
        other,
        atlas,
        by_tail,
        estimates,
        &mut work[n..],
        &mut route,
        &mut log,
    );
    TwoTotals {
        present: present.total,
        new: new.total,
    }
}
