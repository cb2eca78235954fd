// The case of the four steps, one after the other.
use crate::answer::Answer;
use crate::calls;
use crate::calls::Call;
use cases::pick_part;
use frame::SubState;

// `steps KG LEVEL NAME PASSWORD OWNID RM OPENED M2 M4 [LOOKUP]`: Begin, the Open Session Response, Message 2 and Message 4.
const STEPS: [Call; 4] = [
    Call::Begin {
        own: 5,
        level: 2,
        name: 3,
        lookup: 10,
    },
    Call::Open { opened: 7, rm: 6 },
    Call::M2 {
        kg: 1,
        password: 4,
        message: 8,
    },
    Call::M4 { message: 9 },
];

// What the session is. `as u32`: these two enums of `suite` have no call for their number, as the algorithms of `messages` have.
fn say_session(a: &mut Answer, s: SubState) {
    a.say_number(b" ok conf ", s.confidentiality as u32);
    a.say_number(b" integ ", s.integrity as u32);
    a.say(b" ");
    a.say_keys(s.keys);
}

// The message that a step wrote; the first is told even where there is none.
fn say_sent(a: &mut Answer, step: usize, message: &[u8]) {
    if step == 0 {
        a.say_bytes(b"sent ", message);
    } else if !message.is_empty() {
        a.say_bytes(b",", message);
    }
}

// What the steps have to tell until one is refused. Those after it only show whether the line is bad.
pub fn tell_steps(line: &[u8], buf: &mut [u8], a: &mut Answer) -> Option<()> {
    let mut state = calls::make_closed();
    let mut over = false;
    for (step, call) in STEPS.iter().enumerate() {
        let mut room = [0u8; 64];
        let s = calls::make_call(line, *call, state, buf, &mut room)?;
        state = s.state;
        if over {
            continue;
        }
        say_sent(a, step, pick_part(&room, 0, s.len));
        if let Err(r) = s.answer {
            a.say(b" ");
            a.say_refusal(r);
            over = true;
        }
    }
    if !over && let Ok(s) = session::sub_state(state) {
        say_session(a, s);
    }
    Some(())
}
