// Which case a line is.
use crate::answer::Answer;
use crate::hashes::Summing;
use crate::message_readers::Received;
use crate::numbers::has_fields;
use crate::writers::Writer;
use crate::{arriving, ciphers, frames, hashes, message_readers, script, steps, writers};
use aes::Aes128;

// Where a packet begins in a datagram.
const BEHIND: usize = suite::OUTER.len();

#[derive(Clone, Copy)]
enum Case {
    Hash(Summing),
    Encrypt,
    Decrypt,
    CbcEncrypt,
    CbcDecrypt,
    Keys,
    Block,
    Received(Received),
    Arrive,
    Arrivals,
    Read,
    Datagram,
    Once,
    OnceDatagram,
    Write(Writer),
    Steps,
    Script,
}

// A case, and how many fields its line has at least and at most.
#[derive(Clone, Copy)]
struct Form {
    case: Case,
    least: usize,
    most: usize,
}

// The words of the cases.
const WORDS: &[u8] =
    b"sha1 keys block opened rakp2 rakp4 hmac zeros hmac-zeros encrypt decrypt cbc-encrypt cbc-decrypt decline arrive \
    read datagram rakp3 rakp1 once once-datagram open-request write wrap steps pieces arrivals script";

// The forms of the cases, in the order of their words: the place of a word, which `cases::look_up` promises, is its form's.
static FORMS: [Form; 28] = [
    Form {
        case: Case::Hash(Summing::Data),
        least: 2,
        most: 2,
    },
    Form {
        case: Case::Keys,
        least: 2,
        most: 2,
    },
    Form {
        case: Case::Block,
        least: 2,
        most: 2,
    },
    Form {
        case: Case::Received(Received::Opened),
        least: 2,
        most: 2,
    },
    Form {
        case: Case::Received(Received::Rakp2),
        least: 2,
        most: 2,
    },
    Form {
        case: Case::Received(Received::Rakp4),
        least: 2,
        most: 2,
    },
    Form {
        case: Case::Hash(Summing::Coded),
        least: 3,
        most: 3,
    },
    Form {
        case: Case::Hash(Summing::Zeros),
        least: 3,
        most: 3,
    },
    Form {
        case: Case::Hash(Summing::CodedZeros),
        least: 3,
        most: 3,
    },
    Form {
        case: Case::Encrypt,
        least: 3,
        most: 3,
    },
    Form {
        case: Case::Decrypt,
        least: 3,
        most: 3,
    },
    Form {
        case: Case::CbcEncrypt,
        least: 4,
        most: 4,
    },
    Form {
        case: Case::CbcDecrypt,
        least: 4,
        most: 4,
    },
    Form {
        case: Case::Write(Writer::Decline),
        least: 4,
        most: 4,
    },
    Form {
        case: Case::Arrive,
        least: 4,
        most: 4,
    },
    Form {
        case: Case::Read,
        least: 5,
        most: 5,
    },
    Form {
        case: Case::Datagram,
        least: 5,
        most: 5,
    },
    Form {
        case: Case::Write(Writer::Rakp3),
        least: 5,
        most: 5,
    },
    Form {
        case: Case::Write(Writer::Rakp1),
        least: 7,
        most: 7,
    },
    Form {
        case: Case::Once,
        least: 7,
        most: 7,
    },
    Form {
        case: Case::OnceDatagram,
        least: 7,
        most: 7,
    },
    Form {
        case: Case::Write(Writer::OpenRequest),
        least: 8,
        most: 8,
    },
    Form {
        case: Case::Write(Writer::Packet),
        least: 10,
        most: 10,
    },
    Form {
        case: Case::Write(Writer::Datagram),
        least: 10,
        most: 10,
    },
    Form {
        case: Case::Steps,
        least: 10,
        most: 11,
    },
    Form {
        case: Case::Hash(Summing::Pieces),
        least: 2,
        most: usize::MAX,
    },
    Form {
        case: Case::Arrivals,
        least: 2,
        most: usize::MAX,
    },
    Form {
        case: Case::Script,
        least: 1,
        most: usize::MAX,
    },
];

// The case of a line by its word, if it has as many fields as that asks for.
fn find_case(line: &[u8]) -> Option<Case> {
    let form = FORMS.get(cases::look_up(WORDS, cases::pick_field(line, 0)))?;
    has_fields(line, form.least, form.most).then_some(form.case)
}

// Tells what a line asks for; None where it is bad.
fn tell_case(line: &[u8], buf: &mut [u8], room: &mut [u8], a: &mut Answer) -> Option<()> {
    match find_case(line)? {
        Case::Hash(which) => hashes::tell_hash(line, which, buf, a),
        Case::Encrypt => ciphers::tell_block(line, Aes128::encrypt_block, a),
        Case::Decrypt => ciphers::tell_block(line, Aes128::decrypt_block, a),
        Case::CbcEncrypt => ciphers::tell_cbc(line, cbc::cbc_encrypt, buf, a),
        Case::CbcDecrypt => ciphers::tell_cbc(line, cbc::cbc_decrypt, buf, a),
        Case::Keys => ciphers::tell_keys(line, a),
        Case::Block => message_readers::tell_block(line, a),
        Case::Received(which) => message_readers::tell_received(line, which, buf, a),
        Case::Arrive => arriving::tell_arrive(line, a),
        Case::Arrivals => arriving::tell_arrivals(line, a),
        // Closures: for a name the check looks for the contract in the module `opening`, which `frame` keeps to itself, and finds no file.
        Case::Read => frames::tell_read(line, 0, |s, p| frame::read_payload(s, p), buf, a),
        Case::Datagram => {
            frames::tell_read(line, BEHIND, |s, p| frame::read_datagram(s, p), buf, a)
        }
        Case::Once => arriving::tell_once(line, 0, once::read_payload, buf, a),
        Case::OnceDatagram => arriving::tell_once(line, BEHIND, once::read_datagram, buf, a),
        Case::Write(which) => writers::tell_written(line, which, buf, room, a),
        Case::Steps => steps::tell_steps(line, buf, a),
        Case::Script => script::tell_script(line, buf, room, a),
    }
}

// The answer to one line, after what waits. A line that turns out to be bad takes back what it told before.
pub fn answer_line(line: &[u8], buf: &mut [u8], room: &mut [u8], a: &mut Answer) {
    let start = a.end;
    if tell_case(line, buf, room, a).is_none() {
        a.end = start;
        a.say(b"bad line");
    }
    a.say(b"\n");
}
