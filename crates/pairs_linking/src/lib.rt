// The row of a rank r begins with the roads between r and the ranks above it, which are linked by the lower of their ranks.
#![tactic(auto)]

ghost use Rattle.std.specs.Prelude.{◌≡◌, ◌<◌, ◌/◌, length};
ghost use Rattle.pairs_rows.specs.Links.{Grouped, Ranked, net_in, row_of};
ghost use Rattle.pairs_linking.specs.Lending.{RoadAsked, RoadDone, RowAsked, RowBegun, Unlinked};

use network::{JUNCTIONS, ROADS, Rank};
use pairs_rows::Rows;

// The roads of each row as a list: the last one of each row, and before each road the last one of its row, counted from 1; 0 ends a list.
// (Words in arrays: a list of boxes takes a heap, and the project has fixed memory.)
#[derive(Drop)]
pub struct Links {
    pub first: [u32; JUNCTIONS],
    pub next: [u32; ROADS],
}

// The row of road i: the lower of its two ranks.
fn row_of(roads: &[u8], ranks: &[u32], i: usize) -> Rank
    requires { Ranked roads.now ranks.now × (i < length roads.now / 12) }
    ensures { (result.0 ≡ row_of (net_in roads.now ranks.now) i) × (result.0 < length ranks.now) }
{
    let a = network::rank_of(ranks, network::tail_of(roads, i));
    let b = network::rank_of(ranks, network::head_of(roads, i));
    a.min(b)
}

// Links the roads of each row, the last one first.
pub fn link_roads(roads: &[u8], ranks: &[u32], links: &mut Links)
    requires { Unlinked roads.now ranks.now links.old }
    ensures { Grouped roads.now ranks.now links.new.first links.new.next }
{
    for i in 0..roads.len() / 12 {
        let r = row_of(roads, ranks, i).0 as usize;
        links.next[i] = links.first[r];
        links.first[r] = i as u32 + 1;
    }
}

// Road i relaxes the times of its row: upwards to its head, or downwards from its tail.
fn relax_road(roads: &[u8], ranks: &[u32], i: usize, rows: &mut Rows)
    requires { RoadAsked roads.now ranks.now i rows.old }
    ensures { RoadDone roads.now ranks.now i rows.old rows.new }
{
    let a = network::rank_of(ranks, network::tail_of(roads, i)).0;
    let b = network::rank_of(ranks, network::head_of(roads, i)).0;
    let t = network::base_of(roads, i);
    let high = a.max(b) as usize;
    rows.mark(high);
    if a < b {
        pairs_rows::relax_entry(&mut rows.ups, high, t);
    } else {
        pairs_rows::relax_entry(&mut rows.downs, high, t);
    }
}

// The times of single roads between r and the ranks above it, from the last road of the row down.
pub fn relax_roads(roads: &[u8], ranks: &[u32], links: &Links, r: Rank, rows: &mut Rows)
    requires { RowAsked roads.now ranks.now links.now r.0 rows.old }
    ensures { RowBegun roads.now ranks.now r.0 rows.new }
{
    let mut c = links.first[r.0 as usize];
    // A linked list: the next road is where the list says, so no `for` counts them.
    while c > 0 {
        let i = (c - 1) as usize;
        relax_road(roads, ranks, i, rows);
        c = links.next[i];
    }
}
