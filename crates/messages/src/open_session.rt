// Opening a session: the request that we write, the response that we read, and the blocks that name an algorithm in both.
ghost use Rattle.std.specs.Prelude.{◌≡◌, length};
ghost use Rattle.refusal.specs.Answer.{told_as, told};
ghost use Rattle.messages.specs.Block.{block_of, bytes_of, of_type};
ghost use Rattle.messages.specs.Auth.{authentication_code, integrity_code, confidentiality_code};
ghost use Rattle.messages.specs.OpenSession.{open_request, open_checked, open_fields, open_response};
ghost use Rattle.messages.specs.Answers.{told_block, told_open};
ghost use Rattle.messages.specs.Promises.{WritePromise};

use crate::auth::{AuthenticationAlgorithm, ConfidentialityAlgorithm, IntegrityAlgorithm};
use crate::{auth, rakp};
use refusal::Refusal;

// The lengths of the request and of the response.
pub const REQUEST_LEN: usize = 32;

const RESPONSE_LEN: usize = 36;

// Statuses that have a name here besides the common ones.
const NAMES: [u8; 8] = [0x03, 0x04, 0x05, 0x06, 0x07, 0x09, 0x10, 0x11];

// What an algorithm block says.
#[derive(Clone, Copy)]
pub enum AlgorithmPayload {
    Authentication(AuthenticationAlgorithm),
    Integrity(IntegrityAlgorithm),
    Confidentiality(ConfidentialityAlgorithm),
}

impl AlgorithmPayload {
    pub fn write(self) -> [u8; 8]
        ensures { result ≡ bytes_of self }
    {
        match self {
            AlgorithmPayload::Authentication(a) => [0, 0, 0, 8, a.code(), 0, 0, 0],
            AlgorithmPayload::Integrity(i) => [1, 0, 0, 8, i.code(), 0, 0, 0],
            AlgorithmPayload::Confidentiality(c) => [2, 0, 0, 8, c.code(), 0, 0, 0],
        }
    }

    // What eight bytes say. No TryFrom of a byte: the type and the code of a block decide together, and each has its own refusal (`block_of`).
    #[tactic(auto, unfolding(crate::specs::Block::block_of, crate::specs::Block::known, refusal::specs::Order::need, refusal::specs::Order::and_then))]
    pub fn from_data(block: [u8; 8]) -> Result<AlgorithmPayload, Refusal>
        ensures { told_block result ≡ block_of block }
    {
        if block[3] != 8 {
            return Err(Refusal::IncorrectPayloadLenValue);
        }
        let ty = block[0];
        let code = block[4];
        match ty {
            0 => Ok(AlgorithmPayload::Authentication(AuthenticationAlgorithm::try_from(code)?)),
            1 => Ok(AlgorithmPayload::Integrity(IntegrityAlgorithm::try_from(code)?)),
            2 => Ok(AlgorithmPayload::Confidentiality(ConfidentialityAlgorithm::try_from(code)?)),
            _ => Err(Refusal::UnknownBlockType(ty)),
        }
    }
}

// The request. `level` is the highest level that is asked for; none is written as 0.
#[derive(Clone, Copy)]
pub struct OpenSessionRequest {
    pub tag: u8,
    pub level: Option<u8>,
    pub console: u32,
    pub authentication: AuthenticationAlgorithm,
    pub integrity: IntegrityAlgorithm,
    pub confidentiality: ConfidentialityAlgorithm,
}

impl OpenSessionRequest {
    pub fn write_data(self, out: &mut [u8]) -> Result<usize, Refusal>
        ensures { WritePromise (open_request self) out.old result out.new }
    {
        if out.len() < REQUEST_LEN {
            return Err(Refusal::OutputTooShort);
        }
        let level = self.level.unwrap_or(0);
        let head = rakp::make_head(self.tag, level, self.console);
        rakp::put_pieces(
            out,
            &head,
            &AlgorithmPayload::Authentication(self.authentication).write(),
            &AlgorithmPayload::Integrity(self.integrity).write(),
            &AlgorithmPayload::Confidentiality(self.confidentiality).write(),
        );
        Ok(REQUEST_LEN)
    }
}

#[derive(Clone, Copy)]
pub struct OpenSessionResponse {
    pub tag: u8,
    pub level: u8,
    pub console: u32,
    pub system: u32,
    pub authentication: AuthenticationAlgorithm,
    pub integrity: IntegrityAlgorithm,
    pub confidentiality: ConfidentialityAlgorithm,
}

// The block in the place of authentication. The three that read a block differ in a pattern: one function over a trait of the three
// algorithms would need three impls of as many lines.
#[tactic(auto, unfolding(crate::specs::Block::of_type, refusal::specs::Order::need, refusal::specs::Order::and_then))]
fn read_authentication(block: [u8; 8]) -> Result<AuthenticationAlgorithm, Refusal>
    ensures { told_as authentication_code result ≡ of_type 0 (block_of block) }
{
    match AlgorithmPayload::from_data(block)? {
        AlgorithmPayload::Authentication(a) => Ok(a),
        _ => Err(Refusal::WrongKindOfBlock),
    }
}

// The block in the place of integrity.
#[tactic(auto, unfolding(crate::specs::Block::of_type, refusal::specs::Order::need, refusal::specs::Order::and_then))]
fn read_integrity(block: [u8; 8]) -> Result<IntegrityAlgorithm, Refusal>
    ensures { told_as integrity_code result ≡ of_type 1 (block_of block) }
{
    match AlgorithmPayload::from_data(block)? {
        AlgorithmPayload::Integrity(i) => Ok(i),
        _ => Err(Refusal::WrongKindOfBlock),
    }
}

// The block in the place of confidentiality.
#[tactic(auto, unfolding(crate::specs::Block::of_type, refusal::specs::Order::need, refusal::specs::Order::and_then))]
fn read_confidentiality(block: [u8; 8]) -> Result<ConfidentialityAlgorithm, Refusal>
    ensures { told_as confidentiality_code result ≡ of_type 2 (block_of block) }
{
    match AlgorithmPayload::from_data(block)? {
        AlgorithmPayload::Confidentiality(c) => Ok(c),
        _ => Err(Refusal::WrongKindOfBlock),
    }
}

// The tests on what stands before the blocks.
#[tactic(auto, unfolding(crate::specs::OpenSession::open_checked, refusal::specs::Order::need))]
fn check_head(message: &[u8]) -> Result<(), Refusal>
    ensures { told result ≡ open_checked message.now }
{
    if message.len() < 2 {
        return Err(Refusal::NotEnoughData);
    }
    let status = message[1];
    if status != 0 {
        return Err(rakp::refuse_status(status, &NAMES));
    }
    if message.len() != RESPONSE_LEN {
        return Err(Refusal::NotEnoughData);
    }
    let level = message[2];
    if !auth::is_level(level) {
        return Err(Refusal::InvalidPrivilegeLevel(level));
    }
    if octets::load_le4(message, 4) == 0 {
        return Err(Refusal::ZeroRemoteConsoleSessionId);
    }
    if octets::load_le4(message, 8) == 0 {
        return Err(Refusal::ZeroManagedSystemSessionId);
    }
    Ok(())
}

// The blocks in turn, and then the response.
#[tactic(auto, using(crate::proofs::Opening::first_whole, crate::proofs::Opening::second_whole, crate::proofs::Opening::third_whole), unfolding(crate::specs::OpenSession::open_fields, crate::specs::OpenSession::response_numbers, crate::specs::OpenSession::open_numbers, refusal::specs::Order::and_then))]
fn read_blocks(message: &[u8]) -> Result<OpenSessionResponse, Refusal>
    requires { length message.now ≡ 36 }
    ensures { told_open result ≡ open_fields message.now }
{
    let authentication = read_authentication(octets::cut(message, 12))?;
    let integrity = read_integrity(octets::cut(message, 20))?;
    let confidentiality = read_confidentiality(octets::cut(message, 28))?;
    Ok(OpenSessionResponse {
        tag: message[0],
        level: message[2],
        console: octets::load_le4(message, 4),
        system: octets::load_le4(message, 8),
        authentication,
        integrity,
        confidentiality,
    })
}

impl OpenSessionResponse {
    #[tactic(auto, using(crate::proofs::Opening::open_size), unfolding(crate::specs::OpenSession::open_response, refusal::specs::Order::and_then))]
    pub fn from_data(message: &[u8]) -> Result<OpenSessionResponse, Refusal>
        ensures { told_open result ≡ open_response message.now }
    {
        check_head(message)?;
        read_blocks(message)
    }
}
