// What is lent to a call: its input, out of the buffer that holds the bytes of a line's fields, and its output.
use cases::{Span, pick_part};

// The bytes of a field.
pub fn pick_span(buf: &[u8], p: Span) -> &[u8] {
    pick_part(buf, p.from, p.to)
}

// The first n bytes; none where there are fewer.
pub fn lend_part(s: &mut [u8], n: usize) -> &mut [u8] {
    s.get_mut(..n).unwrap_or(&mut [])
}

// The first n bytes of the room, made as they are lent.
pub fn lend_room(room: &mut [u8], n: usize) -> &mut [u8] {
    cases::fill_room(room, n);
    lend_part(room, n)
}
