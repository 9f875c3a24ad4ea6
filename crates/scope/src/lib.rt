// Where owned names are used: refusal 10.
#![tactic(auto)]

ghost use Rattle.std.specs.Prelude.{◌≡◌, ◌||◌, ◌+◌, ◌<◌};
ghost use Rattle.prelude.specs.Promises.{found, outcome};
ghost use Rattle.prelude.specs.Sets.{has, IsSet};
ghost use Rattle.layout.specs.Layout.{name_count, part_count};
ghost use Rattle.layout.specs.Entries.{is_session};
ghost use Rattle.layout.specs.Promises.{IsPart};
ghost use Rattle.fields.specs.Fields.{field_count};
ghost use Rattle.scope.specs.Reach.{misses_name, is_out_of_reach, reach_refusal};
ghost use Rattle.scope.specs.Promises.{opens, IsReach, KeepsReachFrom};
ghost use Rattle.scope.specs.Joined.{Joined};

use fields::field_at;
use fields::roles::Role;
use layout::Script;
use layout::file::File;
use layout::parts::Part;
use prelude::search::any;
use prelude::{Refusal, set};
use uses::used_at;

// A file that refusals 4 to 9 leave.
#[derive(Clone, Copy)]
pub struct JoinedFile<'a> {
    pub file: File<'a>,
    ghost joined: { Joined file.bytes.now },
}

// The session names.
fn session_names(file: &File<'_>) -> u64
    ensures { IsSet (name_count file.now.bytes.now) (is_session file.now.bytes.now) result }
{
    let mut names: u64 = 0;
    for x in 0..file.layout.names {
        if file.name(x).is_session() {
            names = set::with(names, x);
        }
    }
    names
}

// The names in reach in the part that field f of part q uses, where those of `reach` are in reach in part q: in the
// body of a declaration the declared name is, too.
fn entered(joined: &JoinedFile<'_>, q: usize, f: usize, reach: u64) -> u64
    requires { IsPart joined.now.file.layout q × (f < field_count) }
    ensures { IsSet (name_count joined.now.file.bytes.now) (λ x. opens joined.now.file.bytes.now q f x || has reach x) result }
{
    let field = field_at(&joined.file, q, f);
    if field.role != Role::Child {
        return reach;
    }
    let declared = field_at(&joined.file, q, 0);
    if declared.role.is_new() {
        return set::with(reach, declared.value);
    }
    reach
}

// Finds the names in reach in the parts that the fields of part q use, where those of the later parts are found.
fn enter_fields(joined: &JoinedFile<'_>, q: usize, sets: &mut [u64; Script::MAX_PARTS])
    requires { IsPart joined.now.file.layout q × KeepsReachFrom joined.now.file.bytes.now (q + 1) 0 sets.old }
    ensures { KeepsReachFrom joined.now.file.bytes.now q 0 sets.new }
{
    for f in (0..Part::FIELDS).rev() {
        if let Some(part) = used_at(&joined.file, q, f) {
            sets[part] = entered(joined, q, f, sets[q]);
        }
    }
}

// Field f of part q uses a name that is not in reach.
fn misses_name(joined: &JoinedFile<'_>, reach: u64, q: usize, f: usize) -> bool
    requires in_reach { IsReach joined.now.file.bytes.now q reach }
    requires inside { IsPart joined.now.file.layout q × (f < field_count) }
    ensures { result ≡ misses_name joined.now.file.bytes.now q f }
{
    let field = field_at(&joined.file, q, f);
    field.role.is_use() && !set::has(reach, field.value)
}

#[tactic(auto, unfolding(crate::specs::Reach::is_out_of_reach))]
fn is_out_of_reach(joined: &JoinedFile<'_>, reach: u64, q: usize) -> bool
    requires in_reach { IsReach joined.now.file.bytes.now q reach }
    requires inside { IsPart joined.now.file.layout q }
    ensures { result ≡ is_out_of_reach joined.now.file.bytes.now q }
{
    any(Part::FIELDS, |f| misses_name(joined, reach, q, f))
}

// The smallest part that uses a name out of reach. A part is used by a later one, so this goes from the last part to
// the first, and finds for each part the names in reach.
fn first_out_of_reach(joined: &JoinedFile<'_>) -> Option<usize>
    ensures { result ≡ found (is_out_of_reach joined.now.file.bytes.now) (part_count joined.now.file.bytes.now) }
{
    let mut sets = [0u64; Script::MAX_PARTS];
    let n = joined.file.parts();
    sets[n - 1] = session_names(&joined.file);
    let mut outside = None;
    for q in (0..n).rev() {
        enter_fields(joined, q, &mut sets);
        if is_out_of_reach(joined, sets[q], q) {
            outside = Some(q);
        }
    }
    outside
}

// Row 10.
pub fn check(joined: &JoinedFile<'_>) -> Result<(), Refusal>
    ensures { result ≡ outcome (reach_refusal joined.now.file.bytes.now) tt }
{
    match first_out_of_reach(joined) {
        Some(q) => Err(joined.file.refused_at(10, q)),
        None => Ok(()),
    }
}
