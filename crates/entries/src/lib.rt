// What is wrong with a name, an expression or a node by itself: refusals 6, 7 and 8.
#![tactic(auto)]

mod names; // names.rt: refusal 6
mod parts; // parts.rt: refusals 7 and 8

ghost use Rattle.std.specs.Prelude.{◌≡◌};
ghost use Rattle.prelude.specs.Promises.{outcome};
ghost use Rattle.entries.specs.Faults.{fault_refusal};

use layout::file::File;
use prelude::Refusal;

// Rows 6 to 8, each over all its entries.
pub fn check(file: &File<'_>, levels: usize) -> Result<(), Refusal>
    ensures { result ≡ outcome (fault_refusal file.now.bytes.now levels) tt }
{
    if let Some(x) = names::first_wrong_name(file, levels) {
        return Err(Refusal::at(6, x));
    }
    if let Some(e) = parts::first_wrong_expression(file) {
        return Err(Refusal::at(7, e));
    }
    if let Some(k) = parts::first_wrong_node(file) {
        return Err(Refusal::at(8, k));
    }
    Ok(())
}
