// Message 3: the console's code, or that the exchange is declined.
ghost use Rattle.messages.specs.Rakp.{message3, declined3};
ghost use Rattle.messages.specs.Promises.{WritePromise};

use crate::rakp;
use refusal::Refusal;

// The status that declines: invalid integrity check value.
const DECLINED: u8 = 0x0f;

#[derive(Clone, Copy)]
pub struct RakpMessage3 {
    pub tag: u8,
    pub system: u32,
}

impl RakpMessage3 {
    // The message with the console's code, whose length is the algorithm's.
    pub fn write(self, code: &[u8], out: &mut [u8]) -> Result<usize, Refusal>
        ensures { WritePromise (message3 self code.now) out.old result out.new }
    {
        if out.len() < rakp::HEAD || out.len() - rakp::HEAD < code.len() {
            return Err(Refusal::OutputTooShort);
        }
        let head = rakp::make_head(self.tag, 0, self.system);
        octets::put(out, 0, &head);
        octets::put(out, rakp::HEAD, code);
        Ok(rakp::HEAD + code.len())
    }

    // The message that declines the exchange.
    pub fn decline(self, out: &mut [u8]) -> Result<usize, Refusal>
        ensures { WritePromise (declined3 self) out.old result out.new }
    {
        let head = rakp::make_head(self.tag, DECLINED, self.system);
        if !octets::put(out, 0, &head) {
            return Err(Refusal::OutputTooShort);
        }
        Ok(rakp::HEAD)
    }
}
