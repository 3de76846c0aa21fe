// The lines of a sheet, with their parts as parts of the text.
ghost use Rattle.std.specs.Prelude.{◌≡◌, ◌==◌, length, position, MatchOption};
ghost use Rattle.reader.specs.Lines.{shown, class_of, row_of, dotted_of, up_to, IsCut};

#[derive(Clone, Copy)]
pub enum Line<'a> {
    // an empty line or a comment
    Skipped,
    // what stands after `.i`, `.o` and `.p`
    Inputs(&'a [u8]),
    Outputs(&'a [u8]),
    Count(&'a [u8]),
    Type,
    End,
    // another line that begins with a dot
    Dotted,
    // what stands before the first space and after it
    Row { inputs: &'a [u8], outputs: &'a [u8] },
    // a line without a space
    Plain,
}

// Where the first `b` stands.
fn place(part: &[u8], b: u8) -> Option<usize>
    ensures { result ≡ position (λ c. c == b) part.now }
{
    part.iter().position(|c| *c == b)
}

// What stands before the first `b`, and after it.
pub(crate) fn cut(part: &[u8], b: u8) -> Option<(&[u8], &[u8])>
    ensures { MatchOption result (up_to b part.now ≡ length part.now) (λ p. IsCut b part.now p.0.now p.1.now) }
{
    let n = place(part, b)?;
    Some((&part[..n], &part[n + 1..]))
}

// A row, cut at its first space.
fn split(line: &[u8]) -> Line<'_>
    ensures { shown result ≡ row_of line.now }
{
    match cut(line, b' ') {
        Some((inputs, outputs)) => Line::Row { inputs, outputs },
        None => Line::Plain,
    }
}

// A line that begins with a dot, by what stands after it.
#[tactic(auto, using(crate::proofs::LineLaws::type_line))]
fn dotted(rest: &[u8]) -> Line<'_>
    ensures { shown result ≡ dotted_of rest.now }
{
    match rest {
        [b'i', part @ ..] => Line::Inputs(part),
        [b'o', part @ ..] => Line::Outputs(part),
        [b'p', part @ ..] => Line::Count(part),
        b"type esop" => Line::Type,
        b"e" => Line::End,
        _ => Line::Dotted,
    }
}

// What a line is, by all its bytes but the line feed.
pub(crate) fn classify(line: &[u8]) -> Line<'_>
    ensures { shown result ≡ class_of line.now }
{
    match line {
        [] | [b'#', ..] => Line::Skipped,
        [b'.', rest @ ..] => dotted(rest),
        _ => split(line),
    }
}
