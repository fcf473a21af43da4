// Loading with no enum types listed, into words of its own: a short file needs few rows, and more are cleared only for one that needs more.
ghost use Rattle.std.specs.Prelude.{◌≡◌, [], ◌*◌, length};
ghost use Rattle.layout.specs.Rows.{width};
ghost use Rattle.load.specs.Under.{load_under};
ghost use Rattle.builder.specs.Packed.{packed};

use table::WIDTH;

// Loads a file into the words: the packed answer.
fn load_bare(file: &[u8], words: &mut [u32]) -> u64
    ensures { result ≡ packed (load_under [] file.now (length words.old)) }
{
    let mut readers = 0u32;
    let mut shared = 0u32;
    let mut padding = 0u32;
    crate::xnb_load_rows(file, b"", words, &mut readers, &mut shared, &mut padding)
}

// Loads a file with room for 32 rows.
pub(crate) fn load_few(file: &[u8]) -> u64
    ensures { result ≡ packed (load_under [] file.now (32 * width)) }
{
    let mut words = [0u32; 32 * WIDTH as usize];
    load_bare(file, &mut words)
}

// Loads a file with room for 1,024 rows.
pub(crate) fn load_many(file: &[u8]) -> u64
    ensures { result ≡ packed (load_under [] file.now (1024 * width)) }
{
    let mut words = [0u32; 1024 * WIDTH as usize];
    load_bare(file, &mut words)
}
