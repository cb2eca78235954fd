// Message 2: the system's random number, its GUID, and its code.
ghost use Rattle.messages.specs.Rakp.{message2};
ghost use Rattle.messages.specs.Promises.{ReadPromise2};

use crate::rakp;
use crate::rakp::Place;
use refusal::Refusal;

// Where the code begins, and the statuses that have a name here besides the common ones.
const CODE_AT: usize = 40;

const NAMES: [u8; 6] = [0x08, 0x09, 0x0a, 0x0b, 0x0c, 0x0d];

#[derive(Clone, Copy)]
pub struct RakpMessage2 {
    pub tag: u8,
    pub console: u32,
    pub random: [u8; 16],
    pub guid: [u8; 16],
    pub code: Place,
}

impl RakpMessage2 {
    #[tactic(auto, unfolding(crate::specs::Rakp::message2, crate::specs::Rakp::checked, crate::specs::Rakp::fields2, refusal::specs::Order::and_then, refusal::specs::Order::need))]
    pub fn from_data(message: &[u8]) -> Result<RakpMessage2, Refusal>
        ensures { ReadPromise2 (message2 message.now) result }
    {
        rakp::check_head(
            message,
            &NAMES,
            CODE_AT,
            Refusal::ZeroRemoteConsoleSessionId,
        )?;
        Ok(RakpMessage2 {
            tag: message[0],
            console: octets::load_le4(message, 4),
            random: octets::cut(message, 8),
            guid: octets::cut(message, 24),
            code: Place {
                at: CODE_AT,
                len: message.len() - CODE_AT,
            },
        })
    }
}
