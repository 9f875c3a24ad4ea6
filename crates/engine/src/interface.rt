// The calls for C, which the static library `engine_c` exports. A slice is a pointer and then a length in elements. With an
// `out` of another length than the call's words, or `flows` of another than the most levels, nothing happens: every buffer is
// left untouched.
ghost use Rattle.std.specs.Prelude.{◌≡◌};
ghost use Rattle.engine.specs.Answers.{verdict, flows_found, left};
ghost use Rattle.results.specs.Words.{verdict_words, result_words, flows_words};
ghost use Rattle.engine.specs.Interface.{where_asked, where_both_asked};
ghost use Rattle.book.specs.LevelBook.{most_levels};

use book::Book;
use results::words::{put_flows, put_result, put_verdict};

// The words of `out`.
const CHECK_WORDS: usize = 6;

const RUN_WORDS: usize = 6;

const FLOWS_WORDS: usize = 2;

// `out` becomes number, place, W, T, whether there is a bound on the moves, and that bound.
#[unsafe(no_mangle)]
pub extern "C" fn station_check(book: &[u8], script: &[u8], out: &mut [u32])
    ensures { out.new ≡ where_asked 6 out.old (verdict_words (verdict book.now script.now)) out.old }
{
    if out.len() != CHECK_WORDS {
        return;
    }
    let v = crate::check(book, script);
    put_verdict(v, out);
}

// `out` becomes number, place, ending, steps, instants, lines.
#[unsafe(no_mangle)]
pub extern "C" fn station_run(
    book: &[u8],
    script: &[u8],
    reader: u32,
    values: &mut [i32],
    limit: u32,
    list: &[u32],
    log: &mut [u32],
    out: &mut [u32],
)
    ensures out_after { out.new ≡ where_asked 6 out.old (result_words (left book.now script.now reader values.old limit list.now log.old).result) out.old }
    ensures values_after { values.new ≡ where_asked 6 out.old (left book.now script.now reader values.old limit list.now log.old).values values.old }
    ensures log_after { log.new ≡ where_asked 6 out.old (left book.now script.now reader values.old limit list.now log.old).log log.old }
{
    if out.len() != RUN_WORDS {
        return;
    }
    let r = crate::run(book, script, reader, values, limit, list, log);
    put_result(r, out);
}

// `flows` becomes a set for each level, `out` number, place.
#[unsafe(no_mangle)]
pub extern "C" fn station_flows(script: &[u8], flows: &mut [u32], out: &mut [u32])
    ensures flows_after { flows.new ≡ where_both_asked 2 out.old most_levels flows.old (flows_found script.now).to flows.old }
    ensures out_after { out.new ≡ where_both_asked 2 out.old most_levels flows.old (flows_words (flows_found script.now)) out.old }
{
    if out.len() != FLOWS_WORDS {
        return;
    }
    if flows.len() != Book::MAX_LEVELS {
        return;
    }
    let f = crate::flows(script);
    put_flows(f, flows, out);
}
