// Lines of text that give bytes by two digits each, 0 to 9 and A to F. A remark goes from # to the end of its line; all else
// between the digits is passed over.
ghost use Rattle.std.specs.Prelude.{◌≡◌, ◌≤◌, ◌<◌, ◌∷◌, [], length, MatchOption};
ghost use Rattle.text.specs.Hex.{digit, digits, bytes_of, LineEnds, BytesRead};

// The index behind the line that begins at `at`, with its line break.
pub fn line_end(text: &[u8], at: usize) -> usize
    requires { at < length text.now }
    ensures { LineEnds text.now at result }
{
    match text[at..].iter().position(|c| *c == b'\n') {
        Some(i) => at + i + 1,
        None => text.len(),
    }
}

// What a digit stands for.
#[tactic(auto, unfolding(crate::specs::Hex::digit))]
fn digit(c: u8) -> Option<u8>
    ensures { result ≡ digit c }
{
    match c {
        b'0'..=b'9' => Some(c - b'0'),
        b'A'..=b'F' => Some(c - b'A' + 10),
        _ => None,
    }
}

// The first digit before the remark, and what stands behind it.
fn next_digit(line: &[u8]) -> Option<(u8, &[u8])>
    ensures { MatchOption result (digits line.now ≡ []) (λ p. (digits line.now ≡ p.0 ∷ digits p.1.now) × (p.0 < 16)) }
{
    for (i, c) in line.iter().enumerate() {
        if *c == b'#' {
            return None;
        }
        if let Some(d) = digit(*c) {
            return Some((d, &line[i + 1..]));
        }
    }
    None
}

// The first byte before the remark, and what stands behind it.
#[tactic(auto, unfolding(crate::specs::Hex::bytes_of))]
fn next_byte(line: &[u8]) -> Option<(u8, &[u8])>
    ensures { MatchOption result (bytes_of (digits line.now) ≡ []) (λ p. bytes_of (digits line.now) ≡ p.0 ∷ bytes_of (digits p.1.now)) }
{
    let (high, rest) = next_digit(line)?;
    let (low, rest) = next_digit(rest)?;
    Some((16 * high + low, rest))
}

// Writes the bytes of a line from index `at` on, as many as there is room for, and answers the index behind them.
pub fn read(line: &[u8], out: &mut [u8], at: usize) -> usize
    requires { at ≤ length out.old }
    ensures { BytesRead line.now out.old at out.new result }
{
    let mut rest = line;
    for end in at..out.len() {
        let Some((byte, after)) = next_byte(rest) else {
            return end;
        };
        out[end] = byte;
        rest = after;
    }
    out.len()
}
