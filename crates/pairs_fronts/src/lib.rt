// The row of a lower rank, passed over the row of a rank r.
//
// Each lower rank v that has a pair with r gives the paths over v, from r to the highs of v's later pairs and back. A front for each v,
// which moves along v's records as r ascends, says whether v has a pair with r. Ranks stand in blocks, and of each block a bound is kept,
// which is at most the highs ahead of its ranks.
#![tactic(auto)]

ghost use Rattle.std.specs.Prelude.{◌≡◌, cond, ◌*◌, ◌+◌, ◌<◌, ◌≤◌, ltb, get_or, length};
ghost use Rattle.graph.specs.Path.{Weights};
ghost use Rattle.model.specs.Areas.{record_size};
ghost use Rattle.pairs_records.specs.Words.{high_in};
ghost use Rattle.pairs_fronts.specs.Fronts.{Over, Reached, Stage};
ghost use Rattle.pairs_fronts.specs.Lending.{FrontDone};

use network::{JUNCTIONS, Rank, TimeWord};
use pairs_records::Records;
use pairs_rows::{BLOCK, BLOCKS};

// The front of each lower rank: the place where it stands in the rank's records, the high there, and the place after the last; and the
// bound of each block. (Arrays side by side: fixed memory, of which a loop reads one or two.)
#[derive(Drop)]
pub struct Fronts {
    pub cursor: [u32; JUNCTIONS],
    pub ahead: [u32; JUNCTIONS],
    pub ends: [u32; JUNCTIONS],
    pub soon: [u32; BLOCKS],
}

// The paths over the low of record i, between its high and those of the records after it, relax both rows.
fn relax_over(
    records: Records,
    i: u32,
    end: u32,
    ups: &mut [TimeWord],
    downs: &mut [TimeWord],
    touched: &mut [u32],
)
    requires { (i < end)
        × (record_size * end ≤ length records.pairs.now)
        × (length records.times.now ≡ length records.pairs.now)
        × Reached records.pairs.now (i + 1) end ups.old downs.old touched.old }
    ensures { Over records.entry.pairs.now records.entry.times.now i end ups.old downs.old touched.old ups.new downs.new touched.new }
{
    let down = records.down(i);
    let up = records.up(i);
    for j in i + 1..end {
        let h = records.high(j).0 as usize;
        pairs_rows::relax_entry(ups, h, down.plus(records.up(j)));
        pairs_rows::relax_entry(downs, h, up.plus(records.down(j)));
        pairs_rows::mark(touched, h);
    }
}

// The high of record i; n where it is past the last of its row. (No Option: highs and n are compared as numbers, and their least is kept.)
pub fn ahead_at(records: Records, i: u32, end: u32, n: u32) -> u32
    requires { record_size * end ≤ length records.pairs.now }
    ensures { result ≡ cond (ltb i end) (high_in records.entry.pairs.now i) n }
{
    if i < end { records.high(i).0 } else { n }
}

// The lower rank v has a pair with r: the row of r is relaxed over v, and v's row is passed up to r. The answer is the high ahead then.
pub fn pass_rank(
    records: Records,
    n: u32,
    r: Rank,
    v: Rank,
    cursor: &mut [u32],
    ahead: &mut [u32],
    ends: &[u32],
    ups: &mut [TimeWord],
    downs: &mut [TimeWord],
    touched: &mut [u32],
) -> u32
    requires { ((w : Weights) × Stage w n r.0 v.0 records.pairs.now records.times.now cursor.old ahead.old ends.now
        ups.old downs.old touched.old) × (v.0 < r.0) × (get_or ahead.old v.0 0 ≡ r.0) }
    ensures ahead { result ≡ get_or ahead.new v.0 0 }
    ensures passed { (w : Weights) → Stage w n r.0 v.0 records.entry.pairs.now records.entry.times.now cursor.old ahead.old ends.now
        ups.old downs.old touched.old → Stage w n r.0 (v.0 + 1) records.entry.pairs.now records.entry.times.now cursor.new ahead.new
        ends.now ups.new downs.new touched.new }
{
    let k = v.0 as usize;
    let i = cursor[k];
    let end = ends[k];
    relax_over(records, i, end, ups, downs, touched);
    let high = ahead_at(records, i + 1, end, n);
    cursor[k] = i + 1;
    ahead[k] = high;
    high
}

impl Fronts {
    // The front of r's own row stands at its first record, and the bound of r's block takes in the high ahead.
    pub fn begin(&mut self, r: Rank, place: u32, high: u32, end: u32)
        requires { r.0 < JUNCTIONS }
        ensures { FrontDone r.0 place high end self.old self.new }
    {
        let v = r.0 as usize;
        let b = (r.0 / BLOCK) as usize;
        self.soon[b] = self.soon[b].min(high);
        self.cursor[v] = place;
        self.ahead[v] = high;
        self.ends[v] = end;
    }
}
