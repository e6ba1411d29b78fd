// What a node of the search is, and where it leads: nodes are junctions, the roads of each are lent as its group, and the estimates of open
// roads' heads are asked before a junction's roads are relaxed (document 01: the search log).
#![tactic(auto)]

ghost use Rattle.std.specs.Prelude.{◌≡◌, ◌*◌, ◌+◌, ◌<◌, ◌≤◌, eqb, get_or, length};
ghost use Rattle.model.specs.Layout.{road_size};
ghost use Rattle.model.specs.Bytes.{word_at};
ghost use Rattle.search_labels.specs.Labelling.{Taken, labels_in};
ghost use Rattle.search_junctions.specs.Groups.{part_of};
ghost use Rattle.search_junctions.specs.Views.{met, seen};
ghost use Rattle.search_junctions.specs.State.{given};
ghost use Rattle.search_junctions.specs.Asking.{Asks, AsksGroup, EstimatedOver, EstimatesIn, PairsOver};
ghost use Rattle.search_junctions.specs.Relaxing.{ReadIn, Relaxes, RelaxesGroup, read_of};
ghost use Rattle.search_junctions.specs.Rooms.{RoomOf, SameRoom};
ghost use Rattle.search_junctions.specs.Ways.{step_back};

use network::{Junction, Sizes, Time, TimeWord, admits, head_of, tail_of};
use pairs_hierarchy::Hierarchy;
use pairs_records::Records;
use search_labels::{take, via_of};
use search_queue::Room;

// ---- the roads of a junction

// The group that starts at a, up to b: what lies of it within the area.
pub fn group_at(leaving: &[u32], a: u32, b: u32) -> &[u32]
    ensures { result.now ≡ part_of leaving.now a b }
{
    let end = leaving.len().min(b as usize);
    let start = end.min(a as usize);
    &leaving[start..end]
}

// The roads by the junction that they leave, and where the group of each junction starts (document 02, A1): two areas, as C lends them.
#[derive(Clone, Copy)]
pub struct ByTail<'a> {
    pub leaving: &'a [u32],
    pub groups: &'a [u32],
}

impl<'a> ByTail<'a> {
    // The group of junction v, from its start up to the next.
    pub fn group(self, v: u32) -> &'a [u32]
        requires { v + 1 < length self.groups.now }
        ensures { result.now ≡ part_of self.entry.leaving.now (get_or self.entry.groups.now v 0) (get_or self.entry.groups.now (v + 1) 0) }
    {
        group_at(
            self.leaving,
            self.groups[v as usize],
            self.groups[v as usize + 1],
        )
    }
}

// ---- a trip

// What relaxing reads of the map: its roads, their bytes, and their live times. It knows no pairs.
#[derive(Clone, Copy)]
pub struct Ways<'a> {
    pub roads: &'a [u8],
    pub access: &'a [u8],
    pub live: &'a [TimeWord],
}

// What a trip reads and does not alter: the map's two bodies, the bytes of its roads and the live times, what preparing made of them but
// for the roads by tail, and the down totals of the target.
#[derive(Clone, Copy)]
pub struct Atlas<'a> {
    pub ways: Ways<'a>,
    pub order: &'a [u8],
    pub ranks: &'a [u32],
    pub records: Records<'a>,
    pub down: &'a [TimeWord],
}

// The times that a trip goes by: the live times, or these with one road's time set (document 02, A2). Two kinds of trips, each with its
// name: no value is absent.
#[derive(Clone, Copy)]
pub enum View {
    Live,
    Set(u32, Time),
}

impl View {
    // The time of a road in force, none where it is closed: a road is open if it has one.
    fn time_of(self, live: &[TimeWord], i: u32) -> Time
        requires { i < length (seen self live.now) }
        ensures { result.0 ≡ get_or (seen self live.now) i 0 }
    {
        let time = Time(live[i as usize]);
        match self {
            View::Live => time,
            View::Set(road, other) => if road == i { other } else { time },
        }
    }
}

// A trip on a map of so many junctions and roads, from the start to the target, by a vehicle of a class (document 02, A6).
#[derive(Clone, Copy)]
pub struct Trip {
    pub sizes: Sizes,
    pub start: Junction,
    pub target: Junction,
    pub class: u32,
    pub view: View,
}

impl Trip {
    // The time of a road in force for the trip: a road that is barred to its class counts as closed.
    fn time_of(self, ways: &Ways, i: u32) -> Time
        requires { i < length (met self ways.now.access.now ways.now.live.now) }
        ensures { result.0 ≡ get_or (met self ways.now.access.now ways.now.live.now) i 0 }
    {
        if admits(ways.access, self.class, i as usize) {
            self.view.time_of(ways.live, i)
        } else {
            Time::CLOSED
        }
    }
}

// ---- one road

impl Trip {
    // Asks the estimate of a junction.
    fn estimate(self, atlas: &Atlas, estimates: &mut [TimeWord], j: Junction) -> Time
        requires { (j.0 < self.sizes.n) × PairsOver (given self atlas.now) estimates.old }
        ensures { EstimatedOver (given self atlas.now) estimates.old estimates.new j.0 result.0 }
    {
        let hierarchy = Hierarchy {
            sizes: self.sizes,
            order: atlas.order,
            ranks: atlas.ranks,
            records: atlas.records,
            down: atlas.down,
        };
        hierarchy.estimate(estimates, j)
    }
}

// Asks the estimate of the head of road i, if the road is open. Most are known, and need no call.
fn ask_head(trip: Trip, atlas: &Atlas, estimates: &mut [TimeWord], i: u32)
    requires { (i < trip.sizes.m) × EstimatesIn (given trip atlas.now) estimates.old }
    ensures { Asks (given trip atlas.now) (word_at atlas.now.ways.roads.now (road_size * i)) i (i + 1) estimates.old estimates.new }
{
    let time = trip.time_of(&atlas.ways, i);
    if time.is_closed() {
        return;
    }
    let head = head_of(atlas.ways.roads, i as usize);
    if trip.sizes.n <= head.0 {
        return;
    }
    let known = Time(estimates[head.0 as usize]);
    if !known.is_unasked() {
        return;
    }
    trip.estimate(atlas, estimates, head);
}

// Relaxes road i, whose tail has the time `from`: if it is open, it offers its head a time.
fn relax_road(trip: Trip, ways: &Ways, estimates: &[TimeWord], room: &mut Room, i: u32, from: Time)
    requires { (i < trip.sizes.m) × ReadIn (read_of trip ways.now estimates.now) × RoomOf trip.sizes.n room.old }
    ensures relaxed { Relaxes (read_of trip ways.now estimates.now) (word_at ways.now.roads.now (road_size * i)) from.0 i (i + 1)
        room.old.words.now room.new.words.now }
    ensures same { SameRoom room.old room.new }
{
    let cost = trip.time_of(ways, i);
    if cost.is_closed() {
        return;
    }
    let head = head_of(ways.roads, i as usize);
    if trip.sizes.n <= head.0 {
        return;
    }
    let to_go = Time(estimates[head.0 as usize]);
    let offer = from.plus(cost);
    take(room, head.0, offer, to_go, i);
}

// ---- where a trip leads

impl Trip {
    // Asks the start's estimate.
    pub fn ask_start(self, atlas: &Atlas, estimates: &mut [TimeWord]) -> Time
        requires { (self.start.0 < self.sizes.n) × PairsOver (given self atlas.now) estimates.old }
        ensures { EstimatedOver (given self atlas.now) estimates.old estimates.new self.start.0 result.0 }
    {
        self.estimate(atlas, estimates, self.start)
    }

    // Offers the start, whose estimate is `estimated`, time 0.
    pub fn begin(self, room: &mut Room, estimated: Time)
        requires { (self.start.0 < self.sizes.n) × RoomOf self.sizes.n room.old }
        ensures taken { Taken 0 estimated.0 0 self.sizes.n self.start.0 room.old.words.now room.new.words.now }
        ensures same { SameRoom room.old room.new }
    {
        take(room, self.start.0, Time(0), estimated, 0);
    }

    // Asks the estimates of the heads of a group's open roads.
    pub fn ask(self, atlas: &Atlas, estimates: &mut [TimeWord], group: &[u32])
        requires { EstimatesIn (given self atlas.now) estimates.old }
        ensures { AsksGroup (given self atlas.now) group.now estimates.old estimates.new }
    {
        for &i in group {
            if i < self.sizes.m {
                ask_head(self, atlas, estimates, i);
            }
        }
    }

    // Relaxes the group of roads of a logged junction, whose time is `from`; the estimates of their heads have been asked.
    pub fn relax(
        self,
        ways: &Ways,
        estimates: &[TimeWord],
        room: &mut Room,
        group: &[u32],
        from: Time,
    )
        requires { ReadIn (read_of self ways.now estimates.now) × RoomOf self.sizes.n room.old }
        ensures relaxed { RelaxesGroup (read_of self ways.now estimates.now) group.now from.0 room.old.words.now room.new.words.now }
        ensures same { SameRoom room.old room.new }
    {
        for &road in group {
            if road < self.sizes.m {
                relax_road(self, ways, estimates, room, road, from);
            }
        }
    }

    // Does the log end with v?
    pub fn is_goal(self, v: u32) -> bool
        ensures { result ≡ eqb v self.target.0 }
    {
        v == self.target.0
    }
}

// ---- the way back

impl Trip {
    // The tail of the road that gave v its time, or v where there is none such.
    pub fn step_back(self, atlas: &Atlas, words: &[u64], v: u32) -> u32
        requires { (v < self.sizes.n) × (3 * self.sizes.n ≤ length words.now)
            × (road_size * self.sizes.m ≤ length atlas.now.ways.roads.now) }
        ensures { (result ≡ step_back atlas.now.ways.roads.now (labels_in self.sizes.n words.now).vias self.sizes.n self.sizes.m v)
            × (result < self.sizes.n) }
    {
        let i = via_of(words, self.sizes.n, v);
        if self.sizes.m <= i {
            return v;
        }
        let tail = tail_of(atlas.ways.roads, i as usize).0;
        if tail < self.sizes.n { tail } else { v }
    }
}
