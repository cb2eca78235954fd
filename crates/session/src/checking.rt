// Message 4, which opens the session.
ghost use Rattle.std.specs.Prelude.{◌≡◌, []};
ghost use Rattle.refusal.specs.Answer.{told};
ghost use Rattle.refusal.specs.Order.{done};
ghost use Rattle.session.specs.Record.{opened};
ghost use Rattle.session.specs.Steps.{heard_four, value_four, four_of};
ghost use Rattle.session.specs.Promise.{StepPromise};

use crate::{Record, Step, Stepped, TAG_3, state};
use messages::rakp_4::RakpMessage4;
use refusal::Refusal;

// How many bytes message 4's value has.
const VALUE_LEN: usize = 12;

// The value that message 4 ought to carry.
#[tactic(auto, unfolding(crate::specs::Steps::value_four))]
fn compute_value(state: Record) -> [u8; VALUE_LEN]
    ensures { result ≡ value_four state }
{
    keys::state::message_4_value(state.keys.sik, state.rm, state.system, state.guid)
}

// The record of an open session: only the step changes.
#[tactic(auto, unfolding(crate::specs::Record::opened))]
fn mark_open(state: Record) -> Record
    ensures { result ≡ opened state }
{
    Record {
        step: Step::Open,
        ..state
    }
}

// Message 4 by its own tests, then by tag and id, then by the value, over all of its bytes.
#[tactic(auto, using(crate::proofs::Makes::value_inside), unfolding(crate::specs::Steps::heard_four, refusal::specs::Order::need, refusal::specs::Order::and_then))]
fn check_message(state: Record, message: &[u8]) -> Result<(), Refusal>
    ensures { told result ≡ done (heard_four state message.now) }
{
    let f = RakpMessage4::from_data(message)?;
    state::check_ids(state, TAG_3, f.tag, f.id)?;
    if !octets::same(&message[f.value.at..], &compute_value(state)) {
        return Err(Refusal::InvalidIntegrityCheckValue);
    }
    Ok(())
}

// Takes message 4; nothing is sent after it.
pub fn message_4(state: Record, message: &[u8]) -> Stepped
    ensures { StepPromise (four_of state message.now) state [] result [] }
{
    if !state::is_in_step(state, Step::Message4) {
        return state::refuse(state, Refusal::WrongStep);
    }
    match check_message(state, message) {
        Err(r) => state::refuse(state::make_closed(), r),
        Ok(()) => Stepped {
            state: mark_open(state),
            answer: Ok(()),
            len: 0,
        },
    }
}
