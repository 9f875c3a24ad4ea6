// A file whose tail and counts are right, with its layout: refusals 4 and 5, and how the entries are read.
ghost use Rattle.std.specs.Prelude.{◌≡◌, ◌+◌, ◌<◌};
ghost use Rattle.prelude.specs.Refusals.{refused_by};
ghost use Rattle.prelude.specs.Promises.{Answers};
ghost use Rattle.layout.specs.Layout.{expression_count, layout_refusal};
ghost use Rattle.layout.specs.Entries.{name_of, part_of};
ghost use Rattle.layout.specs.Places.{place_of_part};
ghost use Rattle.layout.specs.Promises.{IsPart, Laid, SmallFields};

use crate::Script;
use crate::parts::{Name, Part, name_at, part_at};
use crate::places::place_of_part;
use crate::tail::tail_is_right;
use prelude::Refusal;

// The bytes of a file, and the layout that its tail gives.
#[derive(Clone, Copy)]
pub struct File<'a> {
    pub bytes: &'a [u8],
    pub layout: Script,
    ghost laid: { Laid bytes.now layout },
}

impl File<'_> {
    // The file of these bytes, or refusal 4 or 5.
    pub fn read(bytes: &[u8]) -> Result<File<'_>, Refusal>
        ensures { Answers (layout_refusal bytes.now) (λ f. f.bytes.now ≡ bytes.now) result }
    {
        if !tail_is_right(bytes) {
            return Err(Refusal::at(4, 0));
        }
        let layout = Script::layout_of(bytes);
        if !layout.counts_are_right() {
            return Err(Refusal::at(5, 0));
        }
        Ok(File { bytes, layout })
    }

    pub fn name(&self, x: usize) -> Name
        requires { x < self.now.layout.names }
        ensures name { result ≡ name_of self.now.bytes.now x }
        ensures small { result.owner < 65536 }
    {
        name_at(self.bytes, x)
    }

    pub fn part(&self, q: usize) -> Part
        requires { IsPart self.now.layout q }
        ensures part { result ≡ part_of self.now.bytes.now q }
        ensures small { SmallFields result }
    {
        part_at(self.bytes, self.layout.offset, q)
    }

    // How many parts the file has: its expressions and its nodes.
    pub fn parts(&self) -> usize
        ensures { result ≡ self.now.layout.expressions + self.now.layout.nodes }
    {
        self.layout.expressions + self.layout.nodes
    }

    // The refusal of this number at part q.
    pub fn refused_at(&self, number: u32, q: usize) -> Refusal
        requires { IsPart self.now.layout q }
        ensures { result ≡ refused_by number (place_of_part (expression_count self.now.bytes.now) q) }
    {
        Refusal::at(number, place_of_part(self.layout.expressions, q))
    }
}
