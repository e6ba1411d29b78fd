// The card: reading it by questions 1 to 6, and writing it by questions 4 to 7.
#![tactic(auto)]

ghost use Rattle.model.specs.Promises.{ReadContract, WriteContract};
ghost use Rattle.card.specs.Answers.{reading_in, rows_of, writing_in};

use network::{Refusal, Verdict, ask};

// Reading answers n and m, or a refusal by questions 1 to 6.
pub fn read(card: &[u8]) -> Result<(u32, u32), Refusal>
    ensures { ReadContract card.now (reading_in result) }
{
    ask(card_layout::COUNT_SIZE <= card.len(), Refusal::Short)?;
    let count = card_layout::sections(card);
    ask(card_checks::count_ok(count), Refusal::Kinds)?;
    ask(card_layout::table_size(count) <= card.len(), Refusal::Short)?;
    ask(card_checks::kinds_ok(card), Refusal::Kinds)?;
    ask(card_checks::starts_ok(card), Refusal::Starts)?;
    let m = card_layout::roads_of(card).len() / card_layout::ROAD_SIZE;
    ask(card_layout::access_fits(card, m), Refusal::Sizes)?;
    card_reader::check(card)?;
    let n = card_layout::order_of(card).len() / card_layout::PLACE_SIZE;
    Ok((n as u32, m as u32))
}

// Makes the card of a map, which is lent as two rows of words, or refuses by questions 4 to 6 and then 7;
// a refusal leaves the area unaltered.
// What was written is read back word for word, and the map of a card of two sections that was read gives that card's bytes.
pub fn write(roads: &[u32], order: &[u32], area: &mut [u8]) -> Verdict
    ensures { WriteContract (rows_of roads.now order.now)
        area.old area.new (writing_in result) }
{
    card_writer::check(roads, order)?;
    let n = order.len() as u32;
    let m = (roads.len() / 3) as u32;
    ask(
        area.len() == card_layout::card_size(n, m),
        Refusal::AreaLengths,
    )?;
    card_writer::put_card(roads, order, area);
    Ok(())
}
