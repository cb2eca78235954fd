// Message 4: the system's check value.
ghost use Rattle.std.specs.Prelude.{◌≡◌};
ghost use Rattle.messages.specs.Rakp.{message4};
ghost use Rattle.messages.specs.Answers.{told4};

use crate::rakp;
use crate::rakp::Place;
use refusal::Refusal;

// Where the check value begins, and the statuses that have a name here besides the common ones.
const VALUE_AT: usize = 8;

const NAMES: [u8; 2] = [0x08, 0x0f];

#[derive(Clone, Copy)]
pub struct RakpMessage4 {
    pub tag: u8,
    pub id: u32,
    pub value: Place,
}

impl RakpMessage4 {
    #[tactic(auto, unfolding(crate::specs::Rakp::message4, crate::specs::Rakp::checked, crate::specs::Rakp::fields4, refusal::specs::Order::and_then, refusal::specs::Order::need))]
    pub fn from_data(message: &[u8]) -> Result<RakpMessage4, Refusal>
        ensures { told4 result ≡ message4 message.now }
    {
        rakp::check_head(
            message,
            &NAMES,
            VALUE_AT,
            Refusal::ZeroManagedSystemSessionId,
        )?;
        Ok(RakpMessage4 {
            tag: message[0],
            id: octets::load_le4(message, 4),
            value: Place {
                at: VALUE_AT,
                len: message.len() - VALUE_AT,
            },
        })
    }
}
