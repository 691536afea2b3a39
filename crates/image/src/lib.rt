// A market kept overnight: its table written out as an image in blocks, each with a check, and read back. Both ask nothing of their
// caller: table and image may be any bytes of any length. Nothing is kept between calls.
#![tactic(auto)]

pub mod block;
pub mod places;
pub mod weigh;
pub mod whole;

ghost use Rattle.std.specs.Prelude.{◌≡◌};
ghost use Rattle.image.specs.Answers.{saved_answer, image_after, restored_answer, table_after};

use crate::whole::{first_bad, put_image, read_market};
use audit::is_market_of;
use decimal::Instrument;
use refusals::Refusal;
use table::places::TABLE;

// Writes the image of a table, or refuses, with nothing changed: BadLength or NoMarket.
pub fn save(q: Instrument, table: &[u8], image: &mut [u8]) -> Result<(), Refusal>
    ensures { (result ≡ saved_answer q table.now image.old)
        × (image.new ≡ image_after q table.now image.old) }
{
    if (image.len() != places::IMAGE) | (table.len() != TABLE) {
        return Err(Refusal::BadLength);
    }
    if !is_market_of(q, table) {
        return Err(Refusal::NoMarket);
    }
    put_image(image, table);
    Ok(())
}

// Reads a table back from its image, or refuses, with nothing changed: BadLength, BadBlock with the number of the first bad block, or NoMarket.
pub fn restore(q: Instrument, table: &mut [u8], image: &[u8]) -> Result<(), Refusal>
    ensures { (result ≡ restored_answer q table.old image.now)
        × (table.new ≡ table_after q table.old image.now) }
{
    if (image.len() != places::IMAGE) | (table.len() != TABLE) {
        return Err(Refusal::BadLength);
    }
    if let Some(k) = first_bad(image) {
        return Err(Refusal::BadBlock(k));
    }
    if !read_market(q, table, image) {
        return Err(Refusal::NoMarket);
    }
    Ok(())
}
