// The lines of a script.
ghost use Rattle.std.specs.Prelude.{◌≡◌, ◌<◌, ◌≤◌, ◌∷◌};
ghost use Rattle.worlds.specs.Imports.{⊤, [], length, MatchOption, position_or_len};
ghost use Rattle.worlds.specs.Lines.{lines_in, without_cr, is_line_end};

/// The number of lines.
pub fn line_count(script: &[u8]) -> usize
    ensures { result ≡ length (lines_in script.now) }
{
    let mut rest = script;
    let mut count = 0;
    while let Some((_line, behind)) = next_line(rest) {
        count += 1;
        rest = behind;
    }
    count
}

/// The first line of what is left of a script, without its end, and what stands behind it.
pub fn next_line(rest: &[u8]) -> Option<(&[u8], &[u8])>
    ensures lines { MatchOption result (lines_in rest.now ≡ [])
        (λ cut. lines_in rest.now ≡ cut.0.now ∷ lines_in cut.1.now) }
    ensures shorter { MatchOption result ⊤ (λ cut. length cut.1.now < length rest.now) }
{
    if rest.is_empty() {
        return None;
    }
    let end = line_len(rest);
    if end == rest.len() {
        return Some((without_cr(rest), &rest[end..]));
    }
    Some((without_cr(&rest[..end]), &rest[end + 1..]))
}

// How many bytes stand before the first LF.
fn line_len(bytes: &[u8]) -> usize
    ensures count { result ≡ position_or_len is_line_end bytes.now }
    ensures inside { result ≤ length bytes.now }
{
    bytes.iter().take_while(|byte| **byte != b'\n').count()
}

// The line without a CR at its end.
fn without_cr(line: &[u8]) -> &[u8]
    ensures { result.now ≡ without_cr line.now }
{
    let count = line.len();
    if count > 0 && line[count - 1] == b'\r' {
        return &line[..count - 1];
    }
    line
}
