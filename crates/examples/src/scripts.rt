// Script files, for a book of two levels: the names, expressions and nodes, and the size of the process.
use script::CheckedFile;
use std::io;
use std::io::Write;

fn say_script<W: Write>(out: &mut W, checked: &CheckedFile<'_>) -> io::Result<()> {
    let layout = checked.file.layout;
    let n = layout.nodes;
    let size = tree::sizes::find_sizes(checked)[n - 1];
    write!(
        out,
        "names {} expressions {}",
        layout.names, layout.expressions
    )?;
    writeln!(out, " nodes {n} size {size}")
}

pub fn show<W: Write>(out: &mut W, file: &[u8]) -> io::Result<()> {
    match script::load(file, 2) {
        Ok(checked) => say_script(out, &checked),
        Err(refusal) => text::say_refusal(out, refusal.number, refusal.place),
    }
}
