// The writer: questions 4 to 6 on the rows of words that a map is lent as, and the card made of them.
// A row's length is taken as 4 bytes a word.
#![tactic(auto)]

ghost use Rattle.std.specs.Prelude.{◌≡◌, length};
ghost use Rattle.model.specs.Layout.{row_size, size_with};
ghost use Rattle.model.specs.Card.{card_of, map_refusal};
ghost use Rattle.network.specs.Refusals.{verdict_in};
ghost use Rattle.card_writer.specs.Lent.{Short, rows_of};

use card_sections::{MapRows, Road};
use network::{Junction, Time, Verdict};

// The roads and the order of a map as two rows of words.
#[derive(Clone, Copy)]
pub struct WordRows<'a> {
    pub roads: &'a [u32],
    pub order: &'a [u32],
}

impl MapRows for WordRows<'_> {
    ghost rows = { λ r. rows_of r.roads.now r.order.now };

    ghost roads_size = { λ r. row_size r.roads.now };

    ghost order_size = { λ r. row_size r.order.now };

    fn sizes_ok(&self) -> bool {
        card_checks::sizes_ok(4 * self.roads.len(), 4 * self.order.len())
    }

    fn junctions(&self) -> u32 {
        self.order.len() as u32
    }

    fn road_count(&self) -> u32 {
        (self.roads.len() / 3) as u32
    }

    fn road(&self, i: u32) -> Road {
        let at = 3 * (i as usize);
        Road {
            tail: Junction(self.roads[at]),
            head: Junction(self.roads[at + 1]),
            base: Time::from(self.roads[at + 2]),
        }
    }

    fn place(&self, k: u32) -> Junction {
        Junction(self.order[k as usize])
    }
}

// Questions 4 to 6.
pub fn check(roads: &[u32], order: &[u32]) -> Verdict
    ensures { verdict_in result ≡ map_refusal (rows_of roads.now order.now) }
{
    card_sections::check_rows(&WordRows { roads, order })
}

// Writes the table of contents and the two bodies.
pub fn put_card(roads: &[u32], order: &[u32], area: &mut [u8])
    requires { (Short roads.now order.now) × (length area.old ≡ size_with (row_size roads.now) (row_size order.now)) }
    ensures { area.new ≡ card_of (rows_of roads.now order.now) }
{
    let a = 4 * roads.len();
    let b = 4 * order.len();
    let middle = card_layout::WRITTEN_TABLE + a;
    card_layout::put_table(area, a as u32, b as u32);
    network::put_words(&mut area[card_layout::WRITTEN_TABLE..middle], roads);
    network::put_words(&mut area[middle..middle + b], order);
}
