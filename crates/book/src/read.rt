// A level book from its bytes.
ghost use Rattle.std.specs.Prelude.{◌≡◌, cond, ◌<◌, Some, None, get_or};
ghost use Rattle.book.specs.LevelBook.{most_levels, row, rows, is_size, size_is_right};
ghost use Rattle.book.specs.Load.{book_of};

use crate::Book;
use std::array;

// A book of n levels can have this size.
fn is_size(n: usize, size: usize) -> bool
    ensures { result ≡ is_size n size }
{
    1 <= n && n <= Book::MAX_LEVELS && size == 1 + 2 * n
}

// Byte k, or 0 past the end.
fn byte_at(s: &[u8], k: usize) -> u8
    ensures { result ≡ get_or s.now k 0 }
{
    s.get(k).copied().unwrap_or(0)
}

// Row i, or 0 where the book has fewer rows.
fn row_at(s: &[u8], i: usize) -> u16
    requires { i < most_levels }
    ensures { result ≡ row s.now i }
{
    u16::from_be_bytes([byte_at(s, 1 + 2 * i), byte_at(s, 2 + 2 * i)])
}

fn read_rows(s: &[u8]) -> [u16; Book::MAX_LEVELS]
    ensures { result ≡ rows s.now }
{
    array::from_fn(|i| row_at(s, i))
}

// The book that the bytes are, if their length and the number of levels are those of a book.
pub fn read_book(s: &[u8]) -> Option<Book>
    ensures { result ≡ cond (size_is_right s.now) (Some (book_of s.now)) None }
{
    let count = usize::from(*s.first()?);
    if is_size(count, s.len()) {
        Some(Book {
            count,
            rows: read_rows(s),
        })
    } else {
        None
    }
}
