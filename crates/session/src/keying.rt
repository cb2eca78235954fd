// Message 2, answered by message 3 or by the message that declines.
ghost use Rattle.std.specs.Prelude.{◌≡◌, ◌≤◌, length};
ghost use Rattle.refusal.specs.Order.{refuse};
ghost use Rattle.refusal.specs.Answer.{told, told_as};
ghost use Rattle.running.specs.Promise.{limit};
ghost use Rattle.keys.specs.Named.{named_of};
ghost use Rattle.session.specs.Constants.{legal_kg, longest_password, three_size};
ghost use Rattle.session.specs.Record.{keyed};
ghost use Rattle.session.specs.Steps.{ready_two, heard_two, who, proved_two, two_of};
ghost use Rattle.session.specs.Promise.{StepPromise};

use crate::{Record, Step, Stepped, TAG_1, TAG_3, state};
use keys::Keys;
use keys::state::Named;
use messages::rakp::HEAD;
use messages::rakp_2::RakpMessage2;
use messages::rakp_3::RakpMessage3;
use refusal::Refusal;

// How many bytes a Kg has.
const KG_LEN: usize = 20;

// The longest password that is taken.
const LONGEST_PASSWORD: usize = 255;

// How many bytes the codes of messages 2 and 3 have.
const CODE_LEN: usize = 20;

// How many bytes message 3 has, with its code.
const MESSAGE_3_LEN: usize = HEAD + CODE_LEN;

// Whether a Kg has its length, or none was lent.
fn is_legal_kg(n: usize) -> bool
    ensures { result ≡ legal_kg n }
{
    n == 0 || n == KG_LEN
}

// What is tested before the message is looked at. Kg and password stay two parameters, as they are lent: the codes take the password alone, so
// a struct of both would be taken apart wherever it came.
#[tactic(auto, unfolding(crate::specs::Steps::ready_two, refusal::specs::Order::need))]
fn check_call(state: Record, kg: &[u8], password: &[u8], room: usize) -> Result<(), Refusal>
    ensures { told result ≡ ready_two longest_password state kg.now password.now room }
{
    if !state::is_in_step(state, Step::Message2) {
        return Err(Refusal::WrongStep);
    }
    if !is_legal_kg(kg.len()) {
        return Err(Refusal::InvalidKgLen);
    }
    if LONGEST_PASSWORD < password.len() {
        return Err(Refusal::PasswordTooLong);
    }
    if room < MESSAGE_3_LEN {
        return Err(Refusal::OutputTooShort);
    }
    Ok(())
}

// Message 2 by its own tests, then by tag, id and the code's length.
#[tactic(auto, unfolding(crate::specs::Steps::heard_two, refusal::specs::Order::need, refusal::specs::Order::and_then))]
fn read_message(state: Record, message: &[u8]) -> Result<RakpMessage2, Refusal>
    ensures { told_as (λ f. f) result ≡ heard_two state message.now }
{
    let f = RakpMessage2::from_data(message)?;
    state::check_ids(state, TAG_1, f.tag, f.console)?;
    if f.code.len != CODE_LEN {
        return Err(Refusal::InvalidKeyExchangeAuthCodeLen);
    }
    Ok(f)
}

// The record with the system's GUID and the keys.
#[tactic(auto, unfolding(crate::specs::Record::keyed))]
fn add_keys(state: Record, guid: [u8; 16], sik: [u8; 20]) -> Record
    ensures { result ≡ keyed state guid sik }
{
    Record {
        step: Step::Message4,
        guid,
        keys: Keys::from_sik(sik),
        ..state
    }
}

// Writes the message that declines; the record closes.
fn decline(state: Record, out: &mut [u8]) -> Stepped
    requires { three_size ≤ length out.old }
    ensures { StepPromise (refuse 31 0) state out.old result out.new }
{
    let message = RakpMessage3 {
        tag: TAG_3,
        system: state.system,
    };
    Stepped {
        state: state::make_closed(),
        answer: Err(Refusal::Declined),
        len: message.decline(out).unwrap(),
    }
}

// Role byte and name of the user, which every code covers. The name by a variable: the borrow checker takes no array out of a field
// straight into a literal.
#[tactic(auto, unfolding(crate::specs::Steps::who, messages::specs::Name::name_of))]
fn name_user(state: Record) -> Named
    ensures { named_of result ≡ who state }
{
    let name = state.begun.username.bytes;
    Named {
        role: state.begun.role,
        name,
        len: state.begun.username.len,
    }
}

// Message 3 where the system knows the password, else the message that declines. What shows it is the code at message 2's end, compared over
// all of its bytes. `f` names the code's place and holds none of its bytes, so the message comes beside it, here and in no other function.
fn answer_message(
    state: Record,
    kg: &[u8],
    password: &[u8],
    message: &[u8],
    f: RakpMessage2,
    out: &mut [u8],
) -> Stepped
    requires { (length kg.now ≤ limit) × (length password.now ≤ limit) × (three_size ≤ length out.old)
        × (f.code.at ≤ length message.now) }
    ensures { StepPromise (proved_two state kg.now password.now message.now f)
        state out.old result out.new }
{
    let console = state.begun.console;
    let user = name_user(state);
    let known = keys::state::message_2_code(
        password,
        console,
        state.system,
        state.rm,
        f.random,
        f.guid,
        user,
    )
    .unwrap();
    if !octets::same(&message[f.code.at..], &known.digest) {
        return decline(state, out);
    }
    let sik = keys::state::sik(kg, password, state.rm, f.random, user).unwrap();
    let code = keys::state::message_3_code(password, f.random, console, user).unwrap();
    let message = RakpMessage3 {
        tag: TAG_3,
        system: state.system,
    };
    Stepped {
        state: add_keys(state, f.guid, sik.digest),
        answer: Ok(()),
        len: message.write(&code.digest, out).unwrap(),
    }
}

// Takes message 2; password and Kg (empty for none) are lent here alone. Writes message 3, or the message that declines.
// The two keep their common lifetime: `TwoCall` (proofs/Calls) counts the lifetimes of this call.
pub fn message_2<'a>(
    state: Record,
    kg: &'a [u8],
    password: &'a [u8],
    message: &[u8],
    out: &mut [u8],
) -> Stepped
    ensures { StepPromise
        (two_of longest_password state kg.now password.now message.now (length out.old))
        state out.old result out.new }
{
    if let Err(r) = check_call(state, kg, password, out.len()) {
        return state::refuse(state, r);
    }
    match read_message(state, message) {
        Err(r) => state::refuse(state::make_closed(), r),
        Ok(f) => answer_message(state, kg, password, message, f, out),
    }
}
