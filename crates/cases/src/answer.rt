// The words of an answer, each added at a cursor.
ghost use Rattle.std.specs.Prelude.{[], ◌∷◌};
ghost use Rattle.text.specs.Digits.{decimal, hex8};
ghost use Rattle.text.specs.Promise.{AddPromise};
ghost use Rattle.cases.specs.Answer.{SayPromise, shown, refusal_pieces};

use refusal::Refusal;
use text::Cursor;

// Bytes in hex, `-` for none.
#[tactic(auto, unfolding(crate::specs::Answer::shown))]
fn show_bytes(out: &mut [u8], c: Cursor, s: &[u8]) -> Cursor
    ensures { AddPromise out.old c (shown s.now) result out.new }
{
    if s.is_empty() {
        return text::add(out, c, b"-");
    }
    text::hex(out, c, s)
}

// A word and bytes. Output and cursor stay two arguments here, as in `text` (`add`).
pub fn say_bytes(out: &mut [u8], c: Cursor, word: &[u8], s: &[u8]) -> Cursor
    ensures { SayPromise out.old c (word.now ∷ shown s.now ∷ []) result out.new }
{
    let c = text::add(out, c, word);
    show_bytes(out, c, s)
}

// A word and a number in decimal.
pub fn say_number(out: &mut [u8], c: Cursor, word: &[u8], n: u32) -> Cursor
    ensures { SayPromise out.old c (word.now ∷ decimal n ∷ []) result out.new }
{
    let c = text::add(out, c, word);
    text::decimal(out, c, u64::from(n))
}

// A word and a number as eight hex digits.
pub fn say_id(out: &mut [u8], c: Cursor, word: &[u8], n: u32) -> Cursor
    ensures { SayPromise out.old c (word.now ∷ hex8 n ∷ []) result out.new }
{
    let c = text::add(out, c, word);
    text::hex8(out, c, n)
}

// `refused`, the number, and the byte where one is carried.
#[tactic(auto, unfolding(crate::specs::Answer::refusal_pieces))]
pub fn say_refusal(out: &mut [u8], c: Cursor, r: Refusal) -> Cursor
    ensures { SayPromise out.old c (refusal_pieces r) result out.new }
{
    let c = say_number(out, c, b"refused ", u32::from(r.number()));
    match r.value() {
        Some(v) => say_number(out, c, b" ", u32::from(v)),
        None => c,
    }
}
