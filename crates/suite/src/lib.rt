// A session as packets see it: its algorithms and keys, the payload types, the code of some bytes, and what the reader's and the
// writer's stages share.
#![tactic(auto)]

ghost use Rattle.std.specs.Prelude.{◌≡◌, ◌<◌};
ghost use Rattle.framing.specs.Packet.{bit};
ghost use Rattle.framing.specs.Read.{longest_packet};
ghost use Rattle.suite.specs.Types.{type_number, TypeOf, code_length, encrypts, carries_code};
ghost use Rattle.suite.specs.Session.{suite_of};
ghost use Rattle.suite.specs.Code.{CodePromise};

use keys::Keys;
use refusal::Refusal;

// The eight payload types, each with the number that stands for it in a packet.
#[derive(Clone, Copy)]
pub enum PayloadType {
    IpmiMessage = 0x00,
    Sol = 0x01,
    RmcpPlusOpenSessionRequest = 0x10,
    RmcpPlusOpenSessionResponse = 0x11,
    RakpMessage1 = 0x12,
    RakpMessage2 = 0x13,
    RakpMessage3 = 0x14,
    RakpMessage4 = 0x15,
}

impl PayloadType {
    // The number that stands for the type in a packet, which has six bits for it.
    pub fn number(self) -> u8
        ensures { (result ≡ type_number self) × (result < 64) }
    {
        self as u8
    }
}

// The type that a number stands for; these eight do, and no other.
impl TryFrom<u8> for PayloadType {
    type Error = Refusal;

    ghost try_from_gives = { TypeOf };

    #[tactic(auto, unfolding(framing::specs::Known::known, refusal::specs::Order::need))]
    fn try_from(n: u8) -> Result<Self, Refusal> {
        match n {
            0x00 => Ok(PayloadType::IpmiMessage),
            0x01 => Ok(PayloadType::Sol),
            0x10 => Ok(PayloadType::RmcpPlusOpenSessionRequest),
            0x11 => Ok(PayloadType::RmcpPlusOpenSessionResponse),
            0x12 => Ok(PayloadType::RakpMessage1),
            0x13 => Ok(PayloadType::RakpMessage2),
            0x14 => Ok(PayloadType::RakpMessage3),
            0x15 => Ok(PayloadType::RakpMessage4),
            _ => Err(Refusal::InvalidPayloadType(n)),
        }
    }
}

// The algorithms that a session can use.
#[derive(Clone, Copy)]
pub enum Confidentiality {
    None,
    AesCbc128,
}

#[derive(Clone, Copy)]
pub enum Integrity {
    None,
    HmacSha1_96,
}

// A session as packets see it.
#[derive(Clone, Copy)]
pub struct SubState {
    pub keys: Keys,
    pub confidentiality: Confidentiality,
    pub integrity: Integrity,
}

// The RMCP header of an IPMI packet.
pub const OUTER: [u8; 4] = *b"\x06\x00\xff\x07";

// The next four are functions and no methods: `frame` hands out `code_len` and `encrypts` as such, and `code_len_only` and the
// other theorems of no second answer name all four.

// The code's length, the one place that has it. A session without integrity has no code, and the same ceiling. A match, so
// that the next algorithm, with another length, is refused until it stands here.
pub fn code_len(i: Integrity) -> usize
    ensures { result ≡ code_length i }
{
    match i {
        Integrity::None | Integrity::HmacSha1_96 => 12,
    }
}

// Whether packets carry a code.
pub fn carries_code(i: Integrity) -> bool
    ensures { result ≡ carries_code i }
{
    matches!(i, Integrity::HmacSha1_96)
}

// Whether bodies are encrypted.
pub fn encrypts(c: Confidentiality) -> bool
    ensures { result ≡ encrypts c }
{
    matches!(c, Confidentiality::AesCbc128)
}

// The longest packet that is read.
pub fn find_longest_packet(s: SubState) -> usize
    ensures { result ≡ longest_packet (suite_of s) }
{
    65804 + code_len(s.integrity)
}

// The bit for a yes or a no in a packet's second byte.
pub fn make_bit(b: bool) -> u8
    ensures { result ≡ bit b }
{
    u8::from(b)
}

// How many bytes the hash computes.
pub const DIGEST_LEN: usize = 20;

// A code as the hash computed it, of which packets carry the first bytes, and how many blocks it compressed.
#[derive(Clone, Copy)]
pub struct Code {
    pub code: [u8; DIGEST_LEN],
    pub blocks: u32,
}

// The code of some bytes under the session's integrity key; zeros and no block for more bytes than the hash takes. `Code` is no `Hashed`
// behind a Result: `CodePromise`, which the pages name, says what is told past the limit too.
pub fn make_code(s: SubState, bytes: &[u8]) -> Code
    ensures { CodePromise s bytes.now result }
{
    match sha1_hmac::hmac(&s.keys.k1, bytes) {
        Ok(h) => {
            // by a variable: the borrow checker takes no array out of a field straight into a literal
            let code = h.digest;
            Code {
                code,
                blocks: h.blocks,
            }
        }
        Err(_) => Code {
            code: [0; DIGEST_LEN],
            blocks: 0,
        },
    }
}
