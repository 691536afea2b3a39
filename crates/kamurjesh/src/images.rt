// A market kept overnight, for programs in C: writing and reading of an image, once for bonds and equities with q that says which, and the
// calls of either. An answer becomes the paper's number; the number of a bad block is written through a pointer, 0 where there is none.
ghost use Rattle.std.specs.Prelude.{◌≡◌};
ghost use Rattle.decimal.specs.declared.Instrument.TheVariants.{Bonds, Equities};
ghost use Rattle.image.specs.Answers.{saved_answer, save_number, image_after, restored_answer, restore_number, table_after};
ghost use Rattle.kamurjesh.specs.Numbers.{bad_block};

use decimal::Instrument;
use image::{restore, save};
use refusals::{Refusal, answer_number};

// The number of the bad block, 0 where there is none.
fn bad_block(answer: Result<(), Refusal>) -> u64
    ensures { result ≡ bad_block answer }
{
    match answer {
        Err(Refusal::BadBlock(k)) => k as u64,
        _ => 0,
    }
}

// Writes the image of a market: 0, or a refusal with nothing changed.
pub fn save_of(q: Instrument, table: &[u8], image: &mut [u8]) -> u64
    ensures { (result ≡ save_number (saved_answer q table.now image.old))
        × (image.new ≡ image_after q table.now image.old) }
{
    answer_number(&save(q, table, image))
}

// Reads a market back from its image: 0, or a refusal with nothing changed but the number of the bad block.
pub fn restore_of(q: Instrument, table: &mut [u8], image: &[u8], block: &mut u64) -> u64
    ensures { (result ≡ restore_number (restored_answer q table.old image.now))
        × (block.new ≡ bad_block (restored_answer q table.old image.now))
        × (table.new ≡ table_after q table.old image.now) }
{
    let answer = restore(q, table, image);
    *block = bad_block(answer);
    answer_number(&answer)
}

// Writes the image of a market of bonds: 0, or a refusal with nothing changed.
pub fn kamurjesh_save(table: &[u8], image: &mut [u8]) -> u64
    ensures { (result ≡ save_number (saved_answer Bonds table.now image.old))
        × (image.new ≡ image_after Bonds table.now image.old) }
{
    save_of(Instrument::Bonds, table, image)
}

// Writes the image of a market of equities: 0, or a refusal with nothing changed.
pub fn kamurjesh_equities_save(table: &[u8], image: &mut [u8]) -> u64
    ensures { (result ≡ save_number (saved_answer Equities table.now image.old))
        × (image.new ≡ image_after Equities table.now image.old) }
{
    save_of(Instrument::Equities, table, image)
}

// Reads a market of bonds back from its image: 0, or a refusal, 13 with the number of the first bad block.
pub fn kamurjesh_restore(table: &mut [u8], image: &[u8], block: &mut u64) -> u64
    ensures { (result ≡ restore_number (restored_answer Bonds table.old image.now))
        × (block.new ≡ bad_block (restored_answer Bonds table.old image.now))
        × (table.new ≡ table_after Bonds table.old image.now) }
{
    restore_of(Instrument::Bonds, table, image, block)
}

// Reads a market of equities back from its image: 0, or a refusal, 13 with the number of the first bad block.
pub fn kamurjesh_equities_restore(table: &mut [u8], image: &[u8], block: &mut u64) -> u64
    ensures { (result ≡ restore_number (restored_answer Equities table.old image.now))
        × (block.new ≡ bad_block (restored_answer Equities table.old image.now))
        × (table.new ≡ table_after Equities table.old image.now) }
{
    restore_of(Instrument::Equities, table, image, block)
}
