// Loads the file on standard input, and prints its rows or its refusal.
#![tactic(auto)]

use answers::Rule;
use ids::RowNumber;
use load::Loaded;
use table::{Table, WIDTH};

// Bytes put one behind the other into a buffer, up to `next`; those that do not fit are left out.
#[derive(Drop)]
struct Lines<'a> {
    out: &'a mut [u8],
    next: usize,
}

impl Lines<'_> {
    fn put(&mut self, s: &[u8]) {
        if fill::copy(self.out, self.next, s, 0, s.len()) {
            self.next += s.len();
        }
    }

    fn put_number(&mut self, n: u64) {
        let mut digits = [0u8; 20];
        let size = io::decimal(n, &mut digits);
        self.put(&digits[..size]);
    }

    // A row's number and its words.
    fn put_row(&mut self, table: Table, row: u32) {
        self.put_number(row as u64);
        for k in 0..WIDTH {
            self.put(b" ");
            self.put_number(table.word(RowNumber(row), k) as u64);
        }
        self.put(b"\n");
    }

    // How many rows, readers and shared objects there are.
    fn put_counts(&mut self, loaded: Loaded) {
        self.put(b"rows ");
        self.put_number(loaded.rows as u64);
        self.put(b" readers ");
        self.put_number(loaded.readers as u64);
        self.put(b" shared ");
        self.put_number(loaded.shared as u64);
        self.put(b"\n");
    }
}

// Loads the file with room for 1,024 rows, and prints the answer: the counts, and each row on its line.
fn print_file(rt: &(impl Print + Eprint), file: &[u8], out: &mut [u8]) -> std::io::Result<()> {
    let mut words = [0u32; 1024 * WIDTH as usize];
    match load::load(file, b"", &mut words) {
        Err(refusal) => printing::print_refusal(rt, refusal),
        Ok(loaded) => {
            let mut lines = Lines { out, next: 0 };
            lines.put_counts(loaded);
            for row in 0..loaded.rows {
                lines.put_row(Table::by_rows(&words), row);
            }
            let Lines { out, next } = lines;
            printing::write_start(rt, out, next)
        }
    }
}

fn main(rt: HostRuntime) -> std::io::Result<()> {
    let mut space = io::large_buffer();
    // A line has at most 88 bytes, so those of 1,024 rows fit.
    let mut out = [0u8; 98304];
    let n = io::read_full(0, &mut space);
    if 32768 < n {
        return printing::print_refusal(&rt, Rule::TooLarge.at(0));
    }
    print_file(&rt, &space[..n], &mut out)
}
