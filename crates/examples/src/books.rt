// Level books: the levels, the bottom and the top, the tables of joins and meets; and what a sweep over their first pairs
// leaves.
ghost use Rattle.std.specs.Prelude.{◌<◌, ◌≤◌};
ghost use Rattle.book.specs.LevelBook.{most_levels};

use book::Book;
use order::OrderedBook;
use pairs::table::{PairTable, Tables};
use std::io;
use std::io::Write;

// What the tables have everywhere that are handed to a sweep of the first pairs: no level.
const MARK: u8 = 99;

// The levels that a table keeps for level i and each level.
fn say_row<W: Write>(out: &mut W, t: &PairTable, n: usize, i: usize) -> io::Result<()>
    requires { (i < n) × (n ≤ most_levels) }
{
    for j in 0..n {
        write!(out, " {}", t.level_at(i, j))?;
    }
    writeln!(out)
}

fn say_table<W: Write>(out: &mut W, title: &str, t: &PairTable, n: usize) -> io::Result<()>
    requires { n ≤ most_levels }
{
    writeln!(out, "{title}")?;
    for i in 0..n {
        say_row(out, t, n, i)?;
    }
    Ok(())
}

fn say_tables<W: Write>(out: &mut W, tables: &Tables, n: usize) -> io::Result<()>
    requires { n ≤ most_levels }
{
    writeln!(out)?;
    say_table(out, "joins", &tables.join, n)?;
    say_table(out, "meets", &tables.meet, n)
}

fn say_book<W: Write>(out: &mut W, b: Book, tables: &Tables) -> io::Result<()>
    requires { b.count ≤ most_levels }
{
    let bottom = lattice::bottom_of(b);
    let top = lattice::top_of(b);
    write!(out, "levels {} bottom {bottom} top {top}", b.count)?;
    say_tables(out, tables, b.count)
}

// All of a level book.
pub fn show_all<W: Write>(out: &mut W, file: &[u8]) -> io::Result<()> {
    match lattice::load(file) {
        Ok(checked) => say_book(out, checked.book, &checked.tables),
        Err(refusal) => text::say_refusal(out, refusal.number, refusal.place),
    }
}

// What a sweep over the first `most` pairs of a book in order gives, and what it leaves in tables of marks. Where no pair lacks
// a level, the place behind all of them is printed.
fn say_first<W: Write>(out: &mut W, levels: &OrderedBook, most: usize) -> io::Result<()> {
    let marks = PairTable::filled(MARK);
    let mut tables = Tables {
        join: marks,
        meet: marks,
    };
    let swept = pairs::sweep(levels, most, &mut tables);
    let place = swept.place.map_or(Book::PLACES, |place| place as usize);
    write!(out, "taken {} place {place}", swept.taken)?;
    say_tables(out, &tables, levels.book.count)
}

// The first `most` pairs of a level book alone.
pub fn show_first<W: Write>(out: &mut W, file: &[u8], most: usize) -> io::Result<()> {
    match order::load(file) {
        Ok(book) => say_first(out, &OrderedBook { book }, most),
        Err(refusal) => text::say_refusal(out, refusal.number, refusal.place),
    }
}
