// A checked script whose levels a book has, and the levels of its expressions.
ghost use Rattle.std.specs.Prelude.{◌<◌};
ghost use Rattle.script.specs.Checked.{Levelled};
ghost use Rattle.flow.specs.Flow.{LevelAt};

use crate::levels::LevelTables;
use language::expression_kinds::ExpressionKind;
use script::CheckedFile;

#[derive(Clone, Copy)]
pub struct LevelledScript<'f, 't> {
    pub checked: CheckedFile<'f>,
    pub levels: LevelTables<'t>,
    ghost levelled: { Levelled checked.file.bytes.now levels.book.count },
}

impl LevelledScript<'_, '_> {
    // The join of the levels of the registers of expression e, bottom if it has none.
    pub fn level_of(&self, e: usize) -> usize
        requires { e < self.now.checked.file.layout.expressions }
        ensures { LevelAt self.now.levels.book self.now.checked.file.bytes.now e result }
    {
        let part = self.checked.file.part(e);
        match ExpressionKind::from_number(part.kind) {
            ExpressionKind::Constant => self.levels.bottom,
            ExpressionKind::Register => self.checked.file.name(part.a).level,
            ExpressionKind::Not => self.level_of(part.a),
            _ => {
                let left = self.level_of(part.a);
                let right = self.level_of(part.b);
                self.levels.join(left, right)
            }
        }
    }
}
