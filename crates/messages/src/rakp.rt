// What the messages have in common: statuses with a name, the first eight bytes, the pieces that a writer puts.
ghost use Rattle.std.specs.Prelude.{◌≡◌, ◌+◌, ◌≤◌, ◌∷◌, ◌++◌, length};
ghost use Rattle.refusal.specs.Table.{number_of, value_of, among};
ghost use Rattle.octets.specs.Number.{le};
ghost use Rattle.octets.specs.Place.{begun};
ghost use Rattle.messages.specs.Status.{status_number};
ghost use Rattle.messages.specs.Rakp.{checked};
ghost use Rattle.refusal.specs.Answer.{told};

use refusal::Refusal;

// A part of the message that was lent: where it starts and how many bytes it has. It stays a place and no slice: `fields2` and `fields4`
// (specs/Rakp) promise the place, and a message that is read borrows nothing.
#[derive(Clone, Copy)]
pub struct Place {
    pub at: usize,
    pub len: usize,
}

// How many bytes stand in front in every message that we write: four and an id.
pub const HEAD: usize = 8;

// Statuses that have a name in every message.
const COMMON: [u8; 3] = [0x01, 0x02, 0x12];

// Whether b is in the list. A function of its own: with the two `contains` in the `if` below, or in a `let` before it, and the law `listed` named,
// the check did not find the proof that the number is `status_number`.
fn is_listed(b: u8, list: &[u8]) -> bool
    ensures { result ≡ among b list.now }
{
    list.contains(&b)
}

// The refusal for a status that is not zero, in a message that has names for `names` too.
#[tactic(auto, unfolding(crate::specs::Status::status_number))]
pub(crate) fn refuse_status(status: u8, names: &[u8]) -> Refusal
    ensures { (number_of result ≡ status_number names.now status) × (value_of result ≡ status) }
{
    if is_listed(status, &COMMON) || is_listed(status, names) {
        Refusal::NamedStatus(status)
    } else {
        Refusal::UnnamedStatus(status)
    }
}

// The tests of messages 2 and 4 on what stands in front: the length, the status, the fixed part's length, the id.
#[tactic(auto, unfolding(crate::specs::Rakp::checked, refusal::specs::Order::need))]
pub(crate) fn check_head(
    message: &[u8],
    names: &[u8],
    fixed: usize,
    zero: Refusal,
) -> Result<(), Refusal>
    ensures { told result ≡ checked names.now fixed (number_of zero) (value_of zero) message.now }
{
    if message.len() < 4 {
        return Err(Refusal::NotEnoughData);
    }
    let status = message[1];
    if status != 0 {
        return Err(refuse_status(status, names));
    }
    if message.len() < fixed {
        return Err(Refusal::NotEnoughData);
    }
    if octets::load_le4(message, 4) == 0 {
        return Err(zero);
    }
    Ok(())
}

// How every message that we write begins: the tag, the request's level or the status, two reserved bytes, an id.
pub(crate) fn make_head(tag: u8, level_or_status: u8, id: u32) -> [u8; HEAD]
    ensures { result ≡ tag ∷ level_or_status ∷ 0 ∷ 0 ∷ le 4 id }
{
    let n = octets::le::<4>(u64::from(id));
    [tag, level_or_status, 0, 0, n[0], n[1], n[2], n[3]]
}

// Four pieces of a message, one after another from the output's start. Four parameters and no slice of slices: that would take a loop with an
// invariant, a definition of what the pieces make together (`joined` is of hmac, on which this crate does not stand) and its laws, for four lines.
pub(crate) fn put_pieces(out: &mut [u8], first: &[u8], second: &[u8], third: &[u8], fourth: &[u8])
    requires { length first.now + length second.now + length third.now + length fourth.now ≤ length out.old }
    ensures { out.new ≡ begun (first.now ++ second.now ++ third.now ++ fourth.now) out.old }
{
    let third_at = first.len() + second.len();
    octets::put(out, 0, first);
    octets::put(out, first.len(), second);
    octets::put(out, third_at, third);
    octets::put(out, third_at + third.len(), fourth);
}
