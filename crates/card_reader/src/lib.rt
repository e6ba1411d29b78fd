// The reader: it walks the card from body to body and remembers its place.
#![tactic(auto)]

ghost use Rattle.std.specs.Prelude.{◌≡◌};
ghost use Rattle.model.specs.Card.{bodies_refusal};
ghost use Rattle.model.specs.Layout.{body_at, order_in, roads_in};
ghost use Rattle.card_layout.specs.Sections.{entry_after};
ghost use Rattle.network.specs.Refusals.{verdict_in};

use network::Verdict;

// The card, and the number of the next body's entry in the table of contents.
#[derive(Clone, Copy)]
pub struct Reader<'a> {
    pub card: &'a [u8],
    pub at: usize,
}

impl<'a> Reader<'a> {
    // A reader at the first entry.
    pub fn new(card: &'a [u8]) -> Self
        ensures { (result.card ≡ card.entry) × (result.at ≡ 0) }
    {
        Reader { card, at: 0 }
    }

    // The body at the reader's place.
    pub fn body(self) -> &'a [u8]
        ensures { result.now ≡ body_at self.entry.card.now self.entry.at }
    {
        card_layout::body_at(self.card, self.at)
    }

    // The reader, moved on to the next body.
    pub fn moved_on(self) -> Self
        ensures { (result.card ≡ self.entry.card) × (result.at ≡ entry_after self.entry.card.now self.entry.at) }
    {
        let at = card_layout::entry_after(self.card, self.at);
        Reader {
            card: self.card,
            at,
        }
    }
}

// Questions 4 to 6 on the first two bodies of a card, by a reader that walks from the one to the other.
pub fn check(card: &[u8]) -> Verdict
    ensures { verdict_in result ≡ bodies_refusal (roads_in card.now) (order_in card.now) }
{
    let first = Reader::new(card);
    let second = first.moved_on();
    card_sections::check(first.body(), second.body())
}
