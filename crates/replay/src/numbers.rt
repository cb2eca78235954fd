// What only the layer's cases ask of a line: how many fields it has; a byte, a flag, a privilege level, a kind of lookup, None where the
// field is bad.
use session::Lookup;

// Whether a line has as many fields as its form asks for.
pub fn has_fields(line: &[u8], least: usize, most: usize) -> bool {
    (least..=most).contains(&text::fields(line, b' '))
}

// A decimal field that is a byte.
pub fn read_byte(line: &[u8], k: usize) -> Option<u8> {
    u8::try_from(cases::read_decimal(line, k, 255)?).ok()
}

// A field that is 0 or 1.
pub fn read_flag(line: &[u8], k: usize) -> Option<bool> {
    Some(cases::read_decimal(line, k, 1)? == 1)
}

// A privilege level, or `none`.
pub fn read_level(line: &[u8], k: usize) -> Option<Option<u8>> {
    if cases::pick_field(line, k) == b"none".as_slice() {
        return Some(None);
    }
    Some(Some(read_byte(line, k)?))
}

// How a user is looked up: by name only where field k is 1; by name and level where it is 0 or is not there.
pub fn read_lookup(line: &[u8], k: usize) -> Option<Lookup> {
    if text::fields(line, b' ') <= k {
        return Some(Lookup::NameAndLevel);
    }
    Some(match read_flag(line, k)? {
        false => Lookup::NameAndLevel,
        true => Lookup::NameOnly,
    })
}
