// The fields of a line: what stands between one separator and the next. A reader goes on from where the last field ended, so
// that a long line is gone through once.
ghost use Rattle.std.specs.Prelude.{◌≡◌, ◌+◌, length, drop};
ghost use Rattle.text.specs.Fields.{upto, cut};

// Where the field that starts at `from` ends: at the next separator, or at the line's end.
pub fn field_end(line: &[u8], from: usize, separator: u8) -> usize
    ensures { result ≡ from + length (upto separator (drop from line.now)) }
{
    let rest = &line[from.min(line.len())..];
    from + rest
        .iter()
        .position(|c| *c == separator)
        .unwrap_or(rest.len())
}

// How many fields the line has: one more than separators. Counted by hand: std's `filter` and `count` take some three instructions more a character.
pub fn fields(line: &[u8], separator: u8) -> usize
    ensures { result ≡ length (cut separator line.now) }
{
    let mut n = 1;
    for c in line {
        if *c == separator {
            n += 1;
        }
    }
    n
}
