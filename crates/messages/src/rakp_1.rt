// Message 1: the console's random number, the role asked for, the user's name.
ghost use Rattle.std.specs.Prelude.{◌≡◌, ◌≤◌, length, take};
ghost use Rattle.messages.specs.Name.{allowed, name_of, username_of};
ghost use Rattle.messages.specs.Rakp.{message1};
ghost use Rattle.messages.specs.Promises.{NamePromise, WritePromise};

use crate::rakp;
use refusal::Refusal;

// Where the name stands: behind the head, the random number and the role's four bytes.
pub const NAME_AT: usize = 28;

// How many bytes a name may have.
const LONGEST_NAME: usize = 16;

// A name: its first `len` bytes, or all sixteen where `len` is more. There is no heap to hold a name of its own length.
#[derive(Clone, Copy)]
pub struct Username {
    pub bytes: [u8; 16],
    pub len: usize,
}

// Whether every byte is ASCII and none is zero.
fn is_allowed(name: &[u8]) -> bool
    ensures { result ≡ allowed name.now }
{
    name.iter().all(|b| *b != 0 && b.is_ascii())
}

impl Username {
    // The name that a user has typed: the whole of it, or a refusal.
    #[tactic(auto, using(crate::proofs::Names::stored_filled), unfolding(crate::specs::Name::username_of, refusal::specs::Order::need, refusal::specs::Order::and_then))]
    pub fn new(name: &[u8]) -> Result<Username, Refusal>
        ensures { NamePromise (username_of name.now) result }
    {
        if LONGEST_NAME < name.len() {
            return Err(Refusal::UsernameTooLong);
        }
        if !is_allowed(name) {
            return Err(Refusal::InvalidUsername);
        }
        Ok(Username {
            bytes: octets::cut(name, 0),
            len: name.len(),
        })
    }
}

// How many bytes the name has. Every length may be given here (rule 7.12), so the code cannot take `len` as it stands.
fn count_name(u: Username) -> usize
    ensures { (result ≡ length (name_of u)) × (result ≤ 16) × (take result u.bytes ≡ name_of u) }
{
    u.len.min(16)
}

#[derive(Clone, Copy)]
pub struct RakpMessage1 {
    pub tag: u8,
    pub system: u32,
    pub random: [u8; 16],
    pub role: u8,
    pub username: Username,
}

impl RakpMessage1 {
    pub fn write(self, out: &mut [u8]) -> Result<usize, Refusal>
        ensures { WritePromise (message1 self) out.old result out.new }
    {
        let n = count_name(self.username);
        if out.len() < NAME_AT + n {
            return Err(Refusal::OutputTooShort);
        }
        rakp::put_pieces(
            out,
            &rakp::make_head(self.tag, 0, self.system),
            &self.random,
            &[self.role, 0, 0, n as u8],
            &self.username.bytes[..n],
        );
        Ok(NAME_AT + n)
    }
}
