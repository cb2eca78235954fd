// The answer to a line, word after word.
use cases::pick_part;
use keys::Keys;
use refusal::Refusal;
use std::io;
use text::Cursor;

// The output that waits, and where its next byte goes. The buffers for a line's bytes and for a room stay parameters beside it: most functions take
// one or two of the three, and of a struct of all three would see more than they use.
#[derive(Drop)]
pub struct Answer<'a> {
    pub out: &'a mut [u8],
    pub end: Cursor,
}

impl Answer<'_> {
    // Writes out what waits.
    pub fn flush(&mut self, rt: &impl Print) -> io::Result<()> {
        let waits = self.end.at;
        rt.write_all(pick_part(self.out, 0, waits))?;
        self.end.at = 0;
        Ok(())
    }

    // Each of these five names the call that adds to the output; one that took the call as a closure would be longer where it is used.
    pub fn say(&mut self, word: &[u8]) {
        self.end = text::add(self.out, self.end, word);
    }

    pub fn say_bytes(&mut self, word: &[u8], s: &[u8]) {
        self.end = cases::say_bytes(self.out, self.end, word, s);
    }

    pub fn say_number(&mut self, word: &[u8], n: u32) {
        self.end = cases::say_number(self.out, self.end, word, n);
    }

    pub fn say_id(&mut self, word: &[u8], n: u32) {
        self.end = cases::say_id(self.out, self.end, word, n);
    }

    pub fn say_refusal(&mut self, r: Refusal) {
        self.end = cases::say_refusal(self.out, self.end, r);
    }

    // `k1 K1 aes KEY`.
    pub fn say_keys(&mut self, k: Keys) {
        self.say_bytes(b"k1 ", &k.k1);
        self.say_bytes(b" aes ", &k.aes_key());
    }

    // How many blocks were hashed.
    pub fn say_blocks(&mut self, n: u32) {
        self.say_number(b" blocks ", n);
    }

    // `; ` before an answer that k others stand before; nothing before the first.
    pub fn part_answers(&mut self, k: usize) {
        if k != 0 {
            self.say(b"; ");
        }
    }

    // What is told of a call that was lent a room and wrote its first `len` bytes; where it wrote another, the line says so.
    pub fn say_output(&mut self, answer: Result<(), Refusal>, len: usize, room: &[u8]) {
        let message = pick_part(room, 0, len);
        match answer {
            Ok(()) => self.say_bytes(b"ok ", message),
            Err(r) => {
                self.say_refusal(r);
                if !message.is_empty() {
                    self.say_bytes(b" wrote ", message);
                }
            }
        }
        self.end = cases::say_spill(self.out, self.end, room, len, room.len());
    }
}
