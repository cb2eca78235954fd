// Begin: the open session request.
ghost use Rattle.std.specs.Prelude.{true, ◌≡◌, ◌≤◌, length};
ghost use Rattle.refusal.specs.Order.{accept};
ghost use Rattle.refusal.specs.Answer.{told, told_as};
ghost use Rattle.session.specs.Constants.{request_size};
ghost use Rattle.session.specs.Record.{closed, begun_of, begun_with};
ghost use Rattle.session.specs.Role.{role_of};
ghost use Rattle.session.specs.Steps.{level_allowed, ready_begin, made_begin, begin_of};
ghost use Rattle.session.specs.Promise.{StepPromise};

use crate::{Asked, Begun, Lookup, OPEN_TAG, Record, Step, Stepped, state};
use messages::auth::{AuthenticationAlgorithm, ConfidentialityAlgorithm, IntegrityAlgorithm};
use messages::open_session::{OpenSessionRequest, REQUEST_LEN};
use messages::rakp_1::Username;
use refusal::Refusal;

// The level of the role where none was asked for.
const ADMINISTRATOR: u8 = 0x04;

// The role's bit that asks for a lookup by name only.
const NAME_ONLY: u8 = 0x10;

// The tests on the id and the level.
#[tactic(auto, unfolding(crate::specs::Steps::ready_begin, refusal::specs::Order::need))]
fn check_asked(asked: Asked) -> Result<(), Refusal>
    ensures { told result ≡ ready_begin asked }
{
    if asked.console == 0 {
        return Err(Refusal::ZeroRemoteConsoleSessionId);
    }
    match asked.level {
        Some(b) if !messages::auth::is_level(b) => Err(Refusal::InvalidPrivilegeLevel(b)),
        _ => Ok(()),
    }
}

// The role that message 1 and the codes have. A sum and no `|`: `role_of` (specs/Role) promises the sum, and the tested level leaves the bit free.
#[tactic(auto, unfolding(crate::specs::Role::role_of, messages::specs::Auth::is_level))]
fn make_role(level: Option<u8>, lookup: Lookup) -> u8
    requires { level_allowed level ≡ true }
    ensures { result ≡ role_of level lookup }
{
    let level = level.unwrap_or(ADMINISTRATOR);
    match lookup {
        Lookup::NameAndLevel => level,
        Lookup::NameOnly => level + NAME_ONLY,
    }
}

// The record that waits for the open response.
#[tactic(auto, unfolding(crate::specs::Record::begun_with, crate::specs::Record::closed))]
fn start_record(begun: Begun) -> Record
    ensures { result ≡ begun_with begun }
{
    Record {
        step: Step::OpenResponse,
        begun,
        ..state::make_closed()
    }
}

// Writes the request, beside the record of what was begun.
fn write_request(asked: Asked, username: Username, out: &mut [u8]) -> Stepped
    requires { (request_size ≤ length out.old) × (level_allowed asked.level ≡ true) }
    ensures { StepPromise (accept (made_begin asked username)) closed out.old result out.new }
{
    let begun = Begun {
        console: asked.console,
        role: make_role(asked.level, asked.lookup),
        username,
    };
    let request = OpenSessionRequest {
        tag: OPEN_TAG,
        level: asked.level,
        console: asked.console,
        authentication: AuthenticationAlgorithm::RakpHmacSha1,
        integrity: IntegrityAlgorithm::HmacSha1_96,
        confidentiality: ConfidentialityAlgorithm::AesCbc128,
    };
    Stepped {
        state: start_record(begun),
        answer: Ok(()),
        len: request.write_data(out).unwrap(),
    }
}

// What is tested before anything is written: the id and the level, then the name, then the room. The name that passed.
#[tactic(auto, unfolding(crate::specs::Steps::begin_of, refusal::specs::Order::need, refusal::specs::Order::and_then))]
fn check_call(asked: Asked, name: &[u8], room: usize) -> Result<Username, Refusal>
    ensures { told_as (made_begin asked) result ≡ begin_of asked name.now room }
{
    check_asked(asked)?;
    let username = Username::new(name)?;
    if room < REQUEST_LEN {
        return Err(Refusal::OutputTooShort);
    }
    Ok(username)
}

// Begins an exchange: what is asked for, and the user's name. Writes the open session request.
pub fn begin(asked: Asked, name: &[u8], out: &mut [u8]) -> Stepped
    ensures { StepPromise (begin_of asked name.now (length out.old))
        closed out.old result out.new }
{
    match check_call(asked, name, out.len()) {
        Err(r) => state::refuse(state::make_closed(), r),
        Ok(username) => write_request(asked, username, out),
    }
}
