// The sizes of a checked script's processes: how many nodes each has.
ghost use Rattle.std.specs.Prelude.{◌≡◌, suc, ◌<◌, ◌≤◌};
ghost use Rattle.language.specs.NodeCounts.{size};
ghost use Rattle.tree.specs.Tree.{process_of};
ghost use Rattle.tree.specs.Promises.{SizeFrom, KeepsSizes};

use fields::children::{Children, children_of};
use layout::Script;
use script::CheckedFile;

// The children of node k, whose sizes and the node itself make the size of its process.
fn children_at(checked: &CheckedFile<'_>, k: usize) -> Children
    requires { k < checked.now.file.layout.nodes }
    ensures sizes { SizeFrom checked.now.file.bytes.now k result }
    ensures small { size (process_of checked.now.file.bytes.now k) ≤ suc k }
{
    let file = &checked.file;
    children_of(file.part(file.layout.expressions + k))
}

// The size of the process of node k, from those of the nodes before.
fn size_at(checked: &CheckedFile<'_>, sizes: &[u16; Script::MAX_NODES], k: usize) -> u16
    requires { KeepsSizes checked.now.file.bytes.now k sizes.now × (k < checked.now.file.layout.nodes) }
    ensures { result ≡ size (process_of checked.now.file.bytes.now k) }
{
    match children_at(checked, k) {
        Children::None => 1,
        Children::One(i) => 1 + sizes[i],
        Children::Two(i, j) => 1 + sizes[i] + sizes[j],
    }
}

// The size of the process of each node. What stands past the nodes is left free.
pub fn find_sizes(checked: &CheckedFile<'_>) -> [u16; Script::MAX_NODES]
    ensures { KeepsSizes checked.now.file.bytes.now checked.now.file.layout.nodes result }
{
    let mut sizes = [0; Script::MAX_NODES];
    for k in 0..checked.file.layout.nodes {
        sizes[k] = size_at(checked, &sizes, k);
    }
    sizes
}
