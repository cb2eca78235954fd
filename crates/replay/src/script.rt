// The case of calls on one step record.
use crate::answer::Answer;
use crate::calls;
use crate::calls::Call;
use crate::lent::lend_room;
use crate::numbers::has_fields;
use cases::{pick_field, pick_part, read_room};
use session::Record;

// A call of a script: how many fields it has at least and at most, and which of them is its room, if it is lent one.
#[derive(Clone, Copy)]
struct Form {
    call: Call,
    least: usize,
    most: usize,
    room: Option<usize>,
}

// The words of the calls: `begin OWNID LEVEL NAME ROOM [LOOKUP]`, `open ROOM OPENED RM`, `m2 ROOM KG PASSWORD MSG` and `m4 MSG`, each behind a
// space, so that its first field is empty.
const WORDS: &[u8] = b"begin open m2 m4";

// The forms of the calls, in the order of their words: the place of a word is its form's.
static FORMS: [Form; 4] = [
    Form {
        call: Call::Begin {
            own: 2,
            level: 3,
            name: 4,
            lookup: 6,
        },
        least: 6,
        most: 7,
        room: Some(5),
    },
    Form {
        call: Call::Open { opened: 3, rm: 4 },
        least: 5,
        most: 5,
        room: Some(2),
    },
    Form {
        call: Call::M2 {
            kg: 3,
            password: 4,
            message: 5,
        },
        least: 6,
        most: 6,
        room: Some(2),
    },
    Form {
        call: Call::M4 { message: 2 },
        least: 3,
        most: 3,
        room: None,
    },
];

// The form of a call by its word, if it has as many fields as that asks for.
fn read_form(call: &[u8]) -> Option<Form> {
    if !pick_field(call, 0).is_empty() {
        return None;
    }
    let form = FORMS.get(cases::look_up(WORDS, pick_field(call, 1)))?;
    has_fields(call, form.least, form.most).then_some(*form)
}

// How much room a call is lent.
fn size_room(call: &[u8], room: Option<usize>) -> Option<usize> {
    match room {
        Some(k) => Some(read_room(call, k)? as usize),
        None => Some(0),
    }
}

// Makes a call, tells what it left, and answers the record after it.
fn take_call(
    call: &[u8],
    state: Record,
    buf: &mut [u8],
    room: &mut [u8],
    a: &mut Answer,
) -> Option<Record> {
    let form = read_form(call)?;
    let room = lend_room(room, size_room(call, form.room)?);
    let s = calls::make_call(call, form.call, state, buf, room)?;
    a.say_output(s.answer, s.len, room);
    Some(s.state)
}

// `script CALL; CALL; ..`. One bad call makes the whole line bad.
pub fn tell_script(line: &[u8], buf: &mut [u8], room: &mut [u8], a: &mut Answer) -> Option<()> {
    let word = pick_field(line, 0);
    let script = pick_part(line, word.len(), line.len());
    let mut state = calls::make_closed();
    for (k, call) in script.split(|b| *b == b';').enumerate() {
        a.part_answers(k);
        state = take_call(call, state, buf, room, a)?;
    }
    Some(())
}
