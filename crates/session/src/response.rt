// The open response, answered by message 1.
ghost use Rattle.std.specs.Prelude.{◌≡◌, ◌≤◌, length};
ghost use Rattle.refusal.specs.Order.{accept, need, and_then};
ghost use Rattle.refusal.specs.Answer.{told, told_as};
ghost use Rattle.messages.specs.OpenSession.{Response, response_numbers};
ghost use Rattle.session.specs.Constants.{one_size};
ghost use Rattle.session.specs.Record.{agreed_of, answered};
ghost use Rattle.session.specs.Steps.{carried, ready_open, heard_open, made_open, open_of};
ghost use Rattle.session.specs.Promise.{StepPromise};
ghost use Rattle.session.specs.declared.Agreed as declared;

use crate::{Agreed, OPEN_TAG, Record, Step, Stepped, TAG_1, state};
use messages::auth::{AuthenticationAlgorithm, ConfidentialityAlgorithm, IntegrityAlgorithm};
use messages::open_session::OpenSessionResponse;
use messages::rakp_1::{NAME_AT, RakpMessage1};
use refusal::Refusal;
use suite::{Confidentiality, Integrity};

// What is tested before the message is looked at.
#[tactic(auto, using(crate::proofs::Chains::in_len), unfolding(crate::specs::Steps::ready_open, refusal::specs::Order::need))]
fn check_call(state: Record, room: usize) -> Result<(), Refusal>
    ensures { told result ≡ ready_open state room }
{
    if !state::is_in_step(state, Step::OpenResponse) {
        return Err(Refusal::WrongStep);
    }
    if room < NAME_AT + state.begun.username.len {
        return Err(Refusal::OutputTooShort);
    }
    Ok(())
}

// What the response agrees to, where this layer carries all three algorithms.
#[tactic(auto, unfolding(crate::specs::Steps::carried, crate::specs::Record::agreed_of, messages::specs::OpenSession::response_numbers, refusal::specs::Order::need))]
fn agree(r: OpenSessionResponse) -> Result<Agreed, Refusal>
    ensures { told_as (λ a. a) result ≡ need (carried (response_numbers r)) 29 0 (accept (agreed_of (response_numbers r))) }
{
    if !matches!(r.authentication, AuthenticationAlgorithm::RakpHmacSha1) {
        return Err(Refusal::AlgorithmNotCarried);
    }
    let integrity = match r.integrity {
        IntegrityAlgorithm::None => Integrity::None,
        IntegrityAlgorithm::HmacSha1_96 => Integrity::HmacSha1_96,
        IntegrityAlgorithm::HmacMd5_128
        | IntegrityAlgorithm::Md5_128
        | IntegrityAlgorithm::HmacSha256_128 => return Err(Refusal::AlgorithmNotCarried),
    };
    let confidentiality = match r.confidentiality {
        ConfidentialityAlgorithm::None => Confidentiality::None,
        ConfidentialityAlgorithm::AesCbc128 => Confidentiality::AesCbc128,
        ConfidentialityAlgorithm::Xrc4_128 | ConfidentialityAlgorithm::Xrc4_40 => {
            return Err(Refusal::AlgorithmNotCarried);
        }
    };
    Ok(Agreed {
        confidentiality,
        integrity,
    })
}

// The response by its own tests, then by tag, id and algorithms; beside it what it agrees to.
#[tactic(auto, unfolding(crate::specs::Steps::heard_open, messages::specs::OpenSession::response_numbers, refusal::specs::Order::need, refusal::specs::Order::and_then))]
fn read_response(state: Record, message: &[u8]) -> Result<(OpenSessionResponse, Agreed), Refusal>
    ensures { told_as {B = Response × declared.Agreed} (λ h. (response_numbers h.0, h.1)) result
        ≡ and_then {B = Response × declared.Agreed} (heard_open state message.now) (λ r. accept (r, agreed_of r)) }
{
    let r = OpenSessionResponse::from_data(message)?;
    state::check_ids(state, OPEN_TAG, r.tag, r.console)?;
    let agreed = agree(r)?;
    Ok((r, agreed))
}

// The record with the system's id, the console's random number, and what was agreed.
#[tactic(auto, unfolding(crate::specs::Record::answered, messages::specs::OpenSession::response_numbers))]
fn add_response(state: Record, r: OpenSessionResponse, agreed: Agreed, rm: [u8; 16]) -> Record
    requires { agreed ≡ agreed_of (response_numbers r) }
    ensures { result ≡ answered state (response_numbers r) rm }
{
    Record {
        step: Step::Message2,
        system: r.system,
        rm,
        agreed,
        ..state
    }
}

// Writes message 1, beside the record with the response.
fn write_message_1(
    state: Record,
    r: OpenSessionResponse,
    agreed: Agreed,
    rm: [u8; 16],
    out: &mut [u8],
) -> Stepped
    requires { (one_size state.begun.username.len ≤ length out.old) × (state.begun.username.len ≤ 16)
        × (agreed ≡ agreed_of (response_numbers r)) }
    ensures { StepPromise (accept (made_open state rm (response_numbers r))) state out.old result out.new }
{
    let message = RakpMessage1 {
        tag: TAG_1,
        system: r.system,
        random: rm,
        role: state.begun.role,
        username: state.begun.username,
    };
    Stepped {
        state: add_response(state, r, agreed, rm),
        answer: Ok(()),
        len: message.write(out).unwrap(),
    }
}

// Takes the open response; `rm` is the console's random number. Writes message 1.
pub fn open_response(state: Record, message: &[u8], rm: [u8; 16], out: &mut [u8]) -> Stepped
    ensures { StepPromise (open_of state message.now rm (length out.old)) state out.old result out.new }
{
    if let Err(r) = check_call(state, out.len()) {
        return state::refuse(state, r);
    }
    match read_response(state, message) {
        Err(r) => state::refuse(state::make_closed(), r),
        Ok((r, agreed)) => write_message_1(state, r, agreed, rm, out),
    }
}
