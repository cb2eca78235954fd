// Records: a closed one, in which step one is, and the session that an open one becomes. What is done with a record stays functions, each in the
// file of its step: as methods they would stand in five blocks of `impl Record`, and a caller would write as much.
ghost use Rattle.std.specs.Prelude.{◌≡◌, eqb};
ghost use Rattle.refusal.specs.Order.{accept, need};
ghost use Rattle.refusal.specs.Answer.{told};
ghost use Rattle.session.specs.Record.{step_number, in_step, closed};
ghost use Rattle.session.specs.Promise.{SessionPromise};
ghost use Rattle.session.specs.Parts.{refused_at};

use crate::{Agreed, Begun, Record, Step, Stepped};
use keys::Keys;
use messages::rakp_1::Username;
use refusal::Refusal;
use suite::{Confidentiality, Integrity, SubState};

// Whether a record is in this step; one whose name is longer than its sixteen bytes is in none.
#[tactic(auto, unfolding(crate::specs::Record::in_step))]
pub(crate) fn is_in_step(state: Record, step: Step) -> bool
    ensures { result ≡ in_step state (step_number step) }
{
    state.step == step && state.begun.username.len <= 16
}

// A closed record holds only zeros: no keys, as before message 2, and no algorithm, as before the open response. The zeros are written out and not
// derived by `Default`: keys of zeros ought to have no name as short as `Keys::default()`, for whoever wrote it could open a session with them.
#[tactic(auto, unfolding(crate::specs::Record::closed, crate::specs::Record::none_begun, crate::specs::Record::no_keys, crate::specs::Record::none_agreed))]
pub(crate) fn make_closed() -> Record
    ensures { result ≡ closed }
{
    Record {
        step: Step::Closed,
        begun: Begun {
            console: 0,
            role: 0,
            username: Username {
                bytes: [0u8; 16],
                len: 0,
            },
        },
        system: 0,
        rm: [0u8; 16],
        guid: [0u8; 16],
        keys: Keys {
            sik: [0u8; 20],
            k1: [0u8; 20],
            k2: [0u8; 20],
        },
        agreed: Agreed {
            confidentiality: Confidentiality::None,
            integrity: Integrity::None,
        },
    }
}

// The tests on what stands in front of every answer: the tag of the message that it answers, then our own id.
#[tactic(auto, unfolding(refusal::specs::Order::need))]
pub(crate) fn check_ids(state: Record, asked: u8, tag: u8, id: u32) -> Result<(), Refusal>
    ensures { told result ≡ need (eqb tag asked) 27 0 (need (eqb id state.begun.console) 28 0 (accept tt)) }
{
    if tag != asked {
        return Err(Refusal::MessageTagMismatch);
    }
    if id != state.begun.console {
        return Err(Refusal::SessionIdMismatch);
    }
    Ok(())
}

// A refusal that wrote nothing, beside the record that it leaves.
pub(crate) fn refuse(state: Record, r: Refusal) -> Stepped
    ensures { result ≡ refused_at state r }
{
    Stepped {
        state,
        answer: Err(r),
        len: 0,
    }
}

// The session that an open record becomes, which frames are read and written with; any other record is refused.
#[tactic(auto, unfolding(crate::specs::Promise::session_with, refusal::specs::Order::need))]
pub fn sub_state(state: Record) -> Result<SubState, Refusal>
    ensures { SessionPromise state result }
{
    if !is_in_step(state, Step::Open) {
        return Err(Refusal::WrongStep);
    }
    Ok(SubState {
        keys: state.keys,
        confidentiality: state.agreed.confidentiality,
        integrity: state.agreed.integrity,
    })
}
