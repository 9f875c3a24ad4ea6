// A checked script whose levels a full book has, and the levels of its names and expressions.
ghost use Rattle.std.specs.Prelude.{◌<◌};
ghost use Rattle.book.specs.LevelBook.{most_levels};
ghost use Rattle.script.specs.Checked.{Levelled};
ghost use Rattle.requirements.specs.Promises.{LevelAt, LevelsAt};

use book::sets;
use language::expression_kinds::ExpressionKind;
use script::CheckedFile;

#[derive(Clone, Copy)]
pub struct LevelledScript<'a> {
    pub checked: CheckedFile<'a>,
    ghost levelled: { Levelled checked.file.bytes.now most_levels },
}

impl LevelledScript<'_> {
    // The level of name x.
    pub fn name_level(&self, x: usize) -> u16
        requires { x < self.now.checked.file.layout.names }
        ensures { LevelAt self.now.checked.file.bytes.now x result }
    {
        sets::only(self.checked.file.name(x).level)
    }

    // The levels of the registers of expression e.
    pub fn levels_of(&self, e: usize) -> u16
        requires { e < self.now.checked.file.layout.expressions }
        ensures { LevelsAt self.now.checked.file.bytes.now e result }
    {
        let part = self.checked.file.part(e);
        match ExpressionKind::from_number(part.kind) {
            ExpressionKind::Constant => 0,
            ExpressionKind::Register => self.name_level(part.a),
            ExpressionKind::Not => self.levels_of(part.a),
            _ => {
                let left = self.levels_of(part.a);
                let right = self.levels_of(part.b);
                sets::union(left, right)
            }
        }
    }
}
