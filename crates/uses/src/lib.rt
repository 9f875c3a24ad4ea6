// How often each expression and each node is used: refusal 9.
#![tactic(auto)]

ghost use Rattle.std.specs.Prelude.{◌≡◌, ◌+◌, ◌-◌, ◌<◌};
ghost use Rattle.prelude.specs.Promises.{found, outcome};
ghost use Rattle.layout.specs.Layout.{expression_count, part_count};
ghost use Rattle.layout.specs.Promises.{IsPart};
ghost use Rattle.fields.specs.Fields.{field_count, field_of};
ghost use Rattle.uses.specs.Uses.{part_used, is_loose, use_refusal};
ghost use Rattle.uses.specs.Promises.{KeepsTimes, KeepsTimesTo};

use fields::field_at;
use fields::roles::Role;
use layout::Script;
use layout::file::File;
use layout::parts::Part;
use prelude::Refusal;
use prelude::search::first;

// The part that field f of part q uses, if it uses one.
pub fn used_at(file: &File<'_>, q: usize, f: usize) -> Option<usize>
    requires { IsPart file.now.layout q × (f < field_count) }
    ensures { result ≡ part_used (expression_count file.now.bytes.now) (field_of file.now.bytes.now q f) }
{
    let field = field_at(file, q, f);
    // One role after the other: a match over all of them is a jump, which is slower.
    if field.role == Role::Expression {
        return Some(field.value);
    }
    if field.role == Role::Child {
        return Some(file.layout.expressions + field.value);
    }
    None
}

// Counts what the fields of part q use, where those of the parts before it are counted.
fn count_fields(file: &File<'_>, q: usize, times: &mut [u16; Script::MAX_PARTS])
    requires { IsPart file.now.layout q × KeepsTimesTo file.now.bytes.now q 0 times.old }
    ensures { KeepsTimesTo file.now.bytes.now (q + 1) 0 times.new }
{
    for f in 0..Part::FIELDS {
        if let Some(part) = used_at(file, q, f) {
            if part < Script::MAX_PARTS {
                times[part] += 1;
            }
        }
    }
}

// For each part how often it is used.
fn count_uses(file: &File<'_>) -> [u16; Script::MAX_PARTS]
    ensures { KeepsTimes file.now.bytes.now result }
{
    let mut times = [0u16; Script::MAX_PARTS];
    for q in 0..file.parts() {
        count_fields(file, q, &mut times);
    }
    times
}

// The smallest part but the last that is not used exactly once.
fn first_loose(file: &File<'_>, times: &[u16; Script::MAX_PARTS]) -> Option<usize>
    requires { KeepsTimes file.now.bytes.now times.now }
    ensures { result ≡ found (is_loose file.now.bytes.now) (part_count file.now.bytes.now - 1) }
{
    first(file.parts() - 1, |q| times[q] != 1)
}

// Row 9. The last part, which is the last node, is used by nothing.
pub fn check(file: &File<'_>) -> Result<(), Refusal>
    ensures { result ≡ outcome (use_refusal file.now.bytes.now) tt }
{
    match first_loose(file, &count_uses(file)) {
        Some(q) => Err(file.refused_at(9, q)),
        None => Ok(()),
    }
}
