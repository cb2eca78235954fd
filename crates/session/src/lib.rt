// The step record and the four steps by which a console opens a session.
#![tactic(auto)]

use keys::Keys;
use messages::rakp_1::Username;
use refusal::Refusal;
use suite::{Confidentiality, Integrity};

mod checking;
mod keying;
mod request;
mod response;
mod state;

pub use checking::message_4;
pub use keying::message_2;
pub use request::begin;
pub use response::open_response;
pub use state::sub_state;

// The tags of the three messages that a console sends; what answers one carries its tag.
pub(crate) const OPEN_TAG: u8 = 0x00;

pub(crate) const TAG_1: u8 = 0x0d;

pub(crate) const TAG_3: u8 = 0x0a;

// Where an exchange stands: what it waits for next.
#[derive(Clone, Copy, PartialEq, Eq)]
pub enum Step {
    Closed,
    OpenResponse,
    Message2,
    Message4,
    Open,
}

// By what the system finds the user's account: by name and level both, or by name only.
#[derive(Clone, Copy)]
pub enum Lookup {
    NameAndLevel,
    NameOnly,
}

// What Begin is asked for, beside the user's name: the console's own id, the privilege level, and how the user is looked up.
#[derive(Clone, Copy)]
pub struct Asked {
    pub console: u32,
    pub level: Option<u8>,
    pub lookup: Lookup,
}

// What Begin fixed; every later step hands it on as it is. The role is the level and the kind of lookup in one byte: message 1 asks for it,
// and each code covers it.
#[derive(Clone, Copy)]
pub struct Begun {
    pub console: u32,
    pub role: u8,
    pub username: Username,
}

// The algorithms that the open response agreed to.
#[derive(Clone, Copy)]
pub struct Agreed {
    pub confidentiality: Confidentiality,
    pub integrity: Integrity,
}

// What an exchange knows. Neither password nor Kg is in it.
#[derive(Clone, Copy)]
pub struct Record {
    pub step: Step,
    pub begun: Begun,
    pub system: u32,
    pub rm: [u8; 16],
    pub guid: [u8; 16],
    pub keys: Keys,
    pub agreed: Agreed,
}

// What a step leaves: the record, its answer, and how many bytes it wrote. A refusal may have written too, the
// message that declines, and each leaves a record: so the three stand side by side. A length and no slice: what was
// written stands in the output that the caller lent.
#[derive(Clone, Copy)]
pub struct Stepped {
    pub state: Record,
    pub answer: Result<(), Refusal>,
    pub len: usize,
}
