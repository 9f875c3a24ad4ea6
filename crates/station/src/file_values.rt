// The values of a file: 4 bytes each, signed, the high byte first.
ghost use Rattle.std.specs.Prelude.{length};
ghost use Rattle.station.specs.Values.{ValuesRead};

// Reads the values and answers how many there are; none where they are more than there is room for, or where the last has
// fewer than 4 bytes.
pub fn read_values(bytes: &[u8], values: &mut [i32]) -> Option<usize>
    ensures { ValuesRead bytes.now (length values.old) values.new result }
{
    let (pieces, rest) = bytes.as_chunks::<4>();
    if !rest.is_empty() || values.len() < pieces.len() {
        return None;
    }
    for (i, piece) in pieces.iter().enumerate() {
        values[i] = i32::from_be_bytes(*piece);
    }
    Some(pieces.len())
}
