// The exports that keep a market overnight: writing and reading of an image, of bonds and of equities.
ghost use Rattle.std.specs.Prelude.{◌≡◌};
ghost use Rattle.decimal.specs.declared.Instrument.TheVariants.{Bonds, Equities};
ghost use Rattle.image.specs.Answers.{saved_answer, save_number, image_after, restored_answer, restore_number, table_after};
ghost use Rattle.kamurjesh.specs.Numbers.{bad_block};

// Writes the image of a market of bonds: 0, or a refusal with nothing changed.
#[unsafe(no_mangle)]
pub extern "C" fn kamurjesh_save(table: &[u8], image: &mut [u8]) -> u64
    ensures { (result ≡ save_number (saved_answer Bonds table.now image.old))
        × (image.new ≡ image_after Bonds table.now image.old) }
{
    kamurjesh::images::kamurjesh_save(table, image)
}

// Writes the image of a market of equities: 0, or a refusal with nothing changed.
#[unsafe(no_mangle)]
pub extern "C" fn kamurjesh_equities_save(table: &[u8], image: &mut [u8]) -> u64
    ensures { (result ≡ save_number (saved_answer Equities table.now image.old))
        × (image.new ≡ image_after Equities table.now image.old) }
{
    kamurjesh::images::kamurjesh_equities_save(table, image)
}

// Reads a market of bonds back from its image: 0, or a refusal, 13 with the number of the first bad block.
#[unsafe(no_mangle)]
pub extern "C" fn kamurjesh_restore(table: &mut [u8], image: &[u8], block: &mut u64) -> u64
    ensures { (result ≡ restore_number (restored_answer Bonds table.old image.now))
        × (block.new ≡ bad_block (restored_answer Bonds table.old image.now))
        × (table.new ≡ table_after Bonds table.old image.now) }
{
    kamurjesh::images::kamurjesh_restore(table, image, block)
}

// Reads a market of equities back from its image: 0, or a refusal, 13 with the number of the first bad block.
#[unsafe(no_mangle)]
pub extern "C" fn kamurjesh_equities_restore(table: &mut [u8], image: &[u8], block: &mut u64) -> u64
    ensures { (result ≡ restore_number (restored_answer Equities table.old image.now))
        × (block.new ≡ bad_block (restored_answer Equities table.old image.now))
        × (table.new ≡ table_after Equities table.old image.now) }
{
    kamurjesh::images::kamurjesh_equities_restore(table, image, block)
}
