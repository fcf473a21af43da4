// The C symbol of the driver's loader.
ghost use Rattle.std.specs.Prelude.{◌≡◌, length};
ghost use Rattle.reading.specs.File.{table_of};
ghost use Rattle.driver.specs.Under.{driver_under};
ghost use Rattle.builder.specs.Told.{load_told};

// Loads a file of the driver's own screen into the words, under a list of enum types.
#[unsafe(no_mangle)]
pub extern "C" fn xnb_load_driver(
    file: &[u8],
    enums: &[u8],
    words: &mut [u32],
    readers: &mut u32,
    shared: &mut u32,
    padding: &mut u32,
) -> u64
    ensures padding_after { (result, readers.new, shared.new, padding.new)
        ≡ load_told file.now (driver_under enums.now file.now (length words.old)) }
    ensures words_after { words.new
        ≡ table_of (driver_under enums.now file.now (length words.old)) (length words.old) }
{
    builder::driver_entry::xnb_load_driver(file, enums, words, readers, shared, padding)
}
