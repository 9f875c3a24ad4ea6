// What is wrong with a name by itself: refusal 6.
ghost use Rattle.std.specs.Prelude.{◌≡◌, not, ◌<◌};
ghost use Rattle.prelude.specs.Promises.{found};
ghost use Rattle.layout.specs.Layout.{name_count};
ghost use Rattle.entries.specs.Faults.{declares_as, declares, name_is_right};

use fields::field_at;
use fields::roles::Role;
use layout::file::File;
use layout::parts::NameKind;
use prelude::search::first;

// A field of this role declares a name of this kind.
fn declares_as(role: Role, kind: usize) -> bool
    ensures { result ≡ declares_as kind role }
{
    match role {
        Role::NewRegister => kind == NameKind::Register as usize,
        Role::NewSignal => kind != NameKind::Register as usize,
        _ => false,
    }
}

// Node k declares name x, which is of this kind.
fn declares(file: &File<'_>, k: usize, kind: usize, x: usize) -> bool
    ensures { result ≡ declares file.now.bytes.now k kind x }
{
    if file.layout.nodes <= k {
        return false;
    }
    let field = field_at(file, file.layout.expressions + k, 0);
    declares_as(field.role, kind) && field.value == x
}

fn name_is_right(file: &File<'_>, levels: usize, x: usize) -> bool
    requires { x < file.now.layout.names }
    ensures { result ≡ name_is_right file.now.bytes.now levels x }
{
    let name = file.name(x);
    name.kind <= NameKind::Signal as usize
        && name.level < levels
        && (name.is_session() || declares(file, name.owner, name.kind, x))
}

// The smallest name at fault.
pub fn first_wrong_name(file: &File<'_>, levels: usize) -> Option<usize>
    ensures { result ≡ found (λ x. not (name_is_right file.now.bytes.now levels x)) (name_count file.now.bytes.now) }
{
    first(file.layout.names, |x| !name_is_right(file, levels, x))
}
