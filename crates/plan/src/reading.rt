// A script as a reader sees it, and the words of its names and expressions.
ghost use Rattle.std.specs.Prelude.{◌≤◌, ◌<◌};
ghost use Rattle.book.specs.LevelBook.{most_levels};
ghost use Rattle.script.specs.Checked.{Levelled};

use book::Book;
use language::expression_kinds::ExpressionKind;
use program::WORDS;
use script::CheckedFile;

// A checked script, a book that has the level of each name, and a level of the book: the reader's.
#[derive(Clone, Copy)]
pub struct Reading<'a> {
    pub checked: CheckedFile<'a>,
    pub book: Book,
    pub reader: usize,
    ghost levelled: { Levelled checked.file.bytes.now book.count },
    ghost levels: { book.count ≤ most_levels },
    ghost known: { reader < book.count },
}

impl Reading<'_> {
    ghost use Rattle.plan.specs.Plan.{ExpressionPacked};
    ghost use Rattle.plan.specs.Readings.{Filled, PacksName};

    // The word of name x. The reader sees a name at or below its level: others make no line, so that nothing of them shows
    // in the log.
    fn name_word(&self, x: usize) -> usize
        requires { x < self.now.checked.file.layout.names }
        ensures { PacksName self.now x result }
    {
        let n = self.checked.file.name(x);
        let seen = self.book.at_or_below(n.level, self.reader);
        packing::pack_name(n.level, n.kind, n.is_session(), seen)
    }

    // The words of the names.
    fn names(&self) -> [usize; WORDS]
        ensures { Filled self.now self.now.checked.file.layout.names 0 0 result }
    {
        let mut words = [0; WORDS];
        for x in 0..self.checked.file.layout.names {
            words[program::NAMES + x] = self.name_word(x);
        }
        words
    }

    // The word of expression e.
    fn expression_word(&self, e: usize) -> usize
        requires { e < self.now.checked.file.layout.expressions }
        ensures { ExpressionPacked self.now.checked.file.bytes.now e result }
    {
        let p = self.checked.file.part(e);
        match ExpressionKind::from_number(p.kind) {
            ExpressionKind::Constant => packing::pack_expression(p.kind, p.b, p.c),
            _ => packing::pack_expression(p.kind, p.b, p.a),
        }
    }

    // And those of the expressions.
    pub fn expressions(&self) -> [usize; WORDS]
        ensures { Filled self.now self.now.checked.file.layout.names self.now.checked.file.layout.expressions 0 result }
    {
        let mut words = self.names();
        for e in 0..self.checked.file.layout.expressions {
            words[program::EXPRESSIONS + e] = self.expression_word(e);
        }
        words
    }
}
