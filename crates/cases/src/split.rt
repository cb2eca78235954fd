// Parts of a line, and its fields.
ghost use Rattle.std.specs.Prelude.{◌≡◌, ◌+◌};
ghost use Rattle.text.specs.Fields.{cut};
ghost use Rattle.cases.specs.Fields.{part_of, part_at, past_of, behind_at, field_of, place_of};

// The bytes from `from` up to `to`; none where there is no such part. Not std's `get(from..to)`: it promises the bytes, but not where they stand.
#[tactic(auto, unfolding(crate::specs::Fields::part_of, crate::specs::Fields::part_at))]
pub fn pick_part(s: &[u8], from: usize, to: usize) -> &[u8]
    ensures { (result.now ≡ part_of s.now from to)
        × (result.ref_ptr.0 ≡ s.entry.ref_ptr.0)
        × (result.ref_ptr.1 ≡ s.entry.ref_ptr.1 + part_at s.now from to) }
{
    if from <= to && to <= s.len() {
        &s[from..to]
    } else {
        &s[..0]
    }
}

// Where the field behind the one at `at` starts; the line's end where there is none.
#[tactic(auto, unfolding(crate::specs::Fields::past_of))]
pub fn pass_field(line: &[u8], at: usize, separator: u8) -> usize
    ensures { result ≡ past_of separator line.now at }
{
    let end = text::field_end(line, at, separator);
    if end < line.len() {
        end + 1
    } else {
        line.len()
    }
}

// The field that k others stand before; where there is none, nothing, at the line's end. An empty field
// says nothing either. Not std's `split` and `nth`: the promise says at which pointer the field stands, and theirs say no place.
#[tactic(auto, using(crate::proofs::Walk::field_part, crate::proofs::Walk::field_at))]
pub fn pick_field(line: &[u8], k: usize) -> &[u8]
    ensures { (result.now ≡ field_of line.now k)
        × (result.ref_ptr.0 ≡ line.entry.ref_ptr.0)
        × (result.ref_ptr.1 ≡ line.entry.ref_ptr.1 + behind_at 0x20 k line.now) }
{
    let mut at: usize = 0;
    for _ in 0..k {
        at = pass_field(line, at, b' ');
    }
    pick_part(line, at, text::field_end(line, at, b' '))
}

// Which of the words, parted by spaces, a text is; as many as they are where it is none. No Option: its promise,
// `place_of`, tells this number.
pub fn look_up(words: &[u8], s: &[u8]) -> usize
    ensures { result ≡ place_of s.now (cut 0x20 words.now) }
{
    words
        .split(|b| *b == b' ')
        .position(|w| w == s)
        .unwrap_or_else(|| text::fields(words, b' '))
}
