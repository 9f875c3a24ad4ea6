// The script file: any bytes in; out comes a checked script, or a refusal.
#![tactic(auto)]

ghost use Rattle.std.specs.Prelude.{◌≡◌, IfOk};
ghost use Rattle.prelude.specs.Promises.{Answers};
ghost use Rattle.script.specs.Refusals.{refusal};
ghost use Rattle.script.specs.Checked.{Checked, Levelled};

use layout::file::File;
use prelude::Refusal;
use scope::JoinedFile;

// A file that no row refuses.
#[derive(Clone, Copy)]
pub struct CheckedFile<'a> {
    pub file: File<'a>,
    ghost checked: { Checked file.bytes.now },
}

// Checks a script file of any bytes, for a book of so many levels.
pub fn load(s: &[u8], levels: usize) -> Result<CheckedFile<'_>, Refusal>
    ensures answers { Answers (refusal s.now levels) (λ f. f.file.bytes.now ≡ s.now) result }
    ensures levelled { IfOk result (λ f. Levelled s.now levels) }
{
    let file = File::read(s)?;
    entries::check(&file, levels)?;
    uses::check(&file)?;
    scope::check(&JoinedFile { file })?;
    Ok(CheckedFile { file })
}
