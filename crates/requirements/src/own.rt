// What a node brings itself.
ghost use Rattle.tree.specs.Promises.{IsNode};
ghost use Rattle.requirements.specs.Promises.{OwnOf};

use crate::levelled::LevelledScript;
use crate::nodes::Own;
use language::process_kinds::ProcessKind;
use layout::parts::Part;

impl LevelledScript<'_> {
    // What the node of this kind, with part p, brings itself.
    pub fn own_levels(&self, kind: ProcessKind, p: Part) -> Own
        requires { IsNode self.now.checked.file.bytes.now kind p }
        ensures { OwnOf self.now.checked.file.bytes.now kind p result }
    {
        match kind {
            ProcessKind::Assign | ProcessKind::Let => Own {
                read: self.levels_of(p.b),
                name: self.name_level(p.a),
            },
            ProcessKind::If | ProcessKind::While => Own {
                read: self.levels_of(p.a),
                name: 0,
            },
            ProcessKind::Watching | ProcessKind::When => Own {
                read: self.name_level(p.a),
                name: 0,
            },
            ProcessKind::Emit => Own {
                read: 0,
                name: self.name_level(p.a),
            },
            ProcessKind::Nil | ProcessKind::Sequence | ProcessKind::Local | ProcessKind::Parallel =>
                Own { read: 0, name: 0 },
        }
    }
}
