// How many moves a script can make in its whole run: one count over the nodes of its file.
#![tactic(auto)]

ghost use Rattle.std.specs.Prelude.{◌≡◌, ◌≤◌};
ghost use Rattle.layout.specs.Layout.{most_nodes};
ghost use Rattle.bound.specs.Bound.{bound_of};
ghost use Rattle.bound.specs.Promises.{counts_up_to, with_kind, bound_by, Few};

use language::process_kinds::ProcessKind;
use layout::file::File;

// How many nodes are other than nil, how many are parallels, how many are whiles.
#[derive(Clone, Copy, Default)]
struct NodeCounts {
    others: usize,
    parallels: usize,
    whiles: usize,
}

impl NodeCounts {
    // One more node, of the kind of this number. (A file that is not checked may have any number there.)
    fn with_kind(self, kind: usize) -> NodeCounts
        requires { Few self most_nodes }
        ensures { result ≡ with_kind self kind }
    {
        NodeCounts {
            others: self.others + usize::from(kind != ProcessKind::Nil as usize),
            parallels: self.parallels + usize::from(kind == ProcessKind::Parallel as usize),
            whiles: self.whiles + usize::from(kind == ProcessKind::While as usize),
        }
    }

    // The bound that they give.
    fn bound(self) -> Option<u32>
        requires { Few self most_nodes }
        ensures { result ≡ bound_by self }
    {
        if self.whiles == 0 {
            Some((self.others * (self.parallels + 1)) as u32)
        } else {
            None
        }
    }
}

fn count_nodes(file: &File<'_>) -> NodeCounts
    ensures { result ≡ counts_up_to file.now.bytes.now file.now.layout.nodes }
{
    let mut counts = NodeCounts::default();
    for k in 0..file.layout.nodes {
        counts = counts.with_kind(file.part(file.layout.expressions + k).kind);
    }
    counts
}

// The bound of the script of a file; none where it holds a while.
pub fn find_bound(file: &File<'_>) -> Option<u32>
    ensures { result ≡ bound_of file.now.bytes.now }
{
    count_nodes(file).bound()
}
