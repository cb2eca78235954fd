// The cases of the cipher and of the session's keys.
use crate::answer::Answer;
use crate::lent::lend_part;
use aes::Aes128;
use cases::{read_bytes, read_exact};
use keys::Keys;
use refusal::Refusal;

// `encrypt KEY BLOCK` and `decrypt KEY BLOCK`.
pub fn tell_block<F: Fn(Aes128, [u8; 16]) -> [u8; 16]>(
    line: &[u8],
    cipher: F,
    a: &mut Answer,
) -> Option<()>
    requires { F.IsAlwaysCallable cipher }
{
    let key = read_exact::<16>(line, 1)?;
    let block = read_exact::<16>(line, 2)?;
    a.say_bytes(b"ok ", &cipher(Aes128::new(key), block));
    Some(())
}

// `cbc-encrypt KEY IV DATA` and `cbc-decrypt KEY IV DATA`.
pub fn tell_cbc<F: Fn([u8; 16], [u8; 16], &mut [u8]) -> Result<(), Refusal>>(
    line: &[u8],
    cipher: F,
    buf: &mut [u8],
    a: &mut Answer,
) -> Option<()>
    requires { F.IsAlwaysCallable cipher }
{
    let key = read_exact::<16>(line, 1)?;
    let iv = read_exact::<16>(line, 2)?;
    let data = read_bytes(line, 3, buf, 0)?;
    let lent = lend_part(buf, data.to);
    match cipher(key, iv, lent) {
        Ok(()) => a.say_bytes(b"ok ", lent),
        Err(r) => a.say_refusal(r),
    }
    Some(())
}

// `keys SIK`.
pub fn tell_keys(line: &[u8], a: &mut Answer) -> Option<()> {
    let sik = read_exact::<20>(line, 1)?;
    a.say(b"ok ");
    a.say_keys(Keys::from_sik(sik));
    Some(())
}
