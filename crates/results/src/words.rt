// The words of the answers, for C.
ghost use Rattle.std.specs.Prelude.{◌≡◌, length};
ghost use Rattle.book.specs.LevelBook.{most_levels};
ghost use Rattle.results.specs.Words.{verdict_words, result_words, flows_words};

use crate::{Flows, RunResult, Verdict};

pub fn put_verdict(v: Verdict, out: &mut [u32])
    requires { length out.old ≡ 6 }
    ensures { out.new ≡ verdict_words v }
{
    let [bounded, moves] = match v.moves {
        Some(moves) => [1, moves],
        None => [0, 0],
    };
    out.copy_from_slice(&[v.number, v.place, v.write, v.test, bounded, moves]);
}

pub fn put_result(r: RunResult, out: &mut [u32])
    requires { length out.old ≡ 6 }
    ensures { out.new ≡ result_words r }
{
    out.copy_from_slice(&[r.number, r.place, r.ending, r.steps, r.instants, r.lines]);
}

pub fn put_flows(f: Flows, flows: &mut [u32], out: &mut [u32])
    requires { (length flows.old ≡ most_levels) × (length out.old ≡ 2) }
    ensures { (flows.new ≡ f.to) × (out.new ≡ flows_words f) }
{
    out.copy_from_slice(&[f.number, f.place]);
    flows.copy_from_slice(&f.to.map(u32::from));
}
