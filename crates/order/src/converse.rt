// The order upside down: for each level the set of the levels that are at or below it.
ghost use Rattle.std.specs.Prelude.{◌≡◌, ◌+◌, ◌<◌, ◌≤◌};
ghost use Rattle.book.specs.LevelBook.{most_levels};
ghost use Rattle.order.specs.Rows.{converse_rows};

use book::Book;

// Adds level i to the sets of the levels that it is at or below.
fn add_level(b: &Book, i: usize, below: &mut [u16; Book::MAX_LEVELS])
    requires { (i < most_levels) × (below.old ≡ converse_rows b.now.rows i) }
    ensures { below.new ≡ converse_rows b.now.rows (i + 1) }
{
    let row = b.rows[i];
    for j in 0..Book::MAX_LEVELS {
        below[j] += (row >> j) % 2 << i;
    }
}

pub fn converse_rows(b: &Book) -> [u16; Book::MAX_LEVELS]
    requires { b.now.count ≤ most_levels }
    ensures { result ≡ converse_rows b.now.rows b.now.count }
{
    let mut below = [0u16; Book::MAX_LEVELS];
    for i in 0..b.count {
        add_level(b, i, &mut below);
    }
    below
}
