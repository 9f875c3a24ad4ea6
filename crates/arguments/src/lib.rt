// What is asked of a call besides a book and a script: refusals 12 to 15.
#![tactic(auto)]

pub mod list; // list.rt: refusal 15, the list of signals

ghost use Rattle.std.specs.Prelude.{◌≡◌, not, ◌+◌, ◌*◌, ◌≤◌, ◌<◌, length};
ghost use Rattle.prelude.specs.Promises.{found, outcome};
ghost use Rattle.arguments.specs.Refusals.{value_is_right, values_refusal, call_refusal};

use layout::file::File;
use layout::parts::SESSION;
use prelude::Refusal;
use prelude::search::first;

// The most steps that a call may allow.
pub const MAX_STEPS: u32 = 1000000;

// Whether name x may have this value at the start.
fn value_is_right(file: &File<'_>, values: &[i32], x: usize) -> bool
    requires { (x < file.now.layout.names) × (x < length values.now) }
    ensures { result ≡ value_is_right file.now.bytes.now values.now x }
{
    let v = values[x];
    if v == 0 {
        return true;
    }
    let name = file.name(x);
    if name.owner != SESSION {
        return false;
    }
    name.kind != 1 || v == 1
}

// The first name with a wrong value.
fn first_wrong(file: &File<'_>, values: &[i32]) -> Option<usize>
    requires { length values.now ≡ file.now.layout.names }
    ensures { result ≡ found (λ x. not (value_is_right file.now.bytes.now values.now x)) file.now.layout.names }
{
    first(file.layout.names, |x| !value_is_right(file, values, x))
}

// Row 13: each name has a value, and a right one.
fn check_values(file: &File<'_>, values: &[i32]) -> Result<(), Refusal>
    ensures { result ≡ outcome (values_refusal file.now.bytes.now values.now) tt }
{
    if values.len() != file.layout.names {
        return Err(Refusal::at(13, 0));
    }
    match first_wrong(file, values) {
        Some(x) => Err(Refusal::at(13, x)),
        None => Ok(()),
    }
}

// What is asked of a call whose book, of so many levels, and script are not refused.
pub fn check_call(
    file: &File<'_>,
    levels: usize,
    reader: u32,
    values: &[i32],
    limit: u32,
    list: &[u32],
) -> Result<(), Refusal>
    ensures { result ≡ outcome (call_refusal levels file.now.bytes.now reader values.now limit list.now) tt }
{
    if levels <= (reader as usize) {
        return Err(Refusal::at(12, 0));
    }
    check_values(file, values)?;
    if MAX_STEPS < limit {
        return Err(Refusal::at(14, 0));
    }
    list::check_list(file, list)
}
