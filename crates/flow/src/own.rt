// What a node brings itself.
ghost use Rattle.tree.specs.Promises.{IsNode};
ghost use Rattle.flow.specs.Flow.{OwnOf};

use crate::levelled::LevelledScript;
use crate::nodes::Own;
use language::process_kinds::ProcessKind;
use layout::parts::Part;

impl LevelledScript<'_, '_> {
    // What the node of this kind, with part p, brings itself.
    pub fn own_levels(&self, kind: ProcessKind, p: Part) -> Own
        requires { IsNode self.now.checked.file.bytes.now kind p }
        ensures { OwnOf self.now.levels.book self.now.checked.file.bytes.now kind p result }
    {
        let bottom = self.levels.bottom;
        match kind {
            ProcessKind::Assign | ProcessKind::Let => Own {
                level: self.level_of(p.b),
                name: self.checked.file.name(p.a).level,
            },
            ProcessKind::If | ProcessKind::While => Own {
                level: self.level_of(p.a),
                name: bottom,
            },
            ProcessKind::Emit | ProcessKind::Local | ProcessKind::Watching | ProcessKind::When => {
                let level = self.checked.file.name(p.a).level;
                Own { level, name: level }
            }
            ProcessKind::Nil | ProcessKind::Sequence | ProcessKind::Parallel => Own {
                level: bottom,
                name: bottom,
            },
        }
    }
}
