// What a session is encrypted and signed with.
ghost use Rattle.std.specs.Prelude.{◌≡◌};
ghost use Rattle.keys.specs.Keys.{keys_of, aes_key_of};

#[derive(Clone, Copy)]
pub struct Keys {
    pub sik: [u8; 20],
    pub k1: [u8; 20],
    pub k2: [u8; 20],
}

impl Keys {
    // The keys that a SIK gives; it is no key that is too long.
    pub fn from_sik(sik: [u8; 20]) -> Keys
        ensures { result ≡ keys_of sik }
    {
        let first = sha1_hmac::hmac(&sik, &[1u8; 20]).unwrap();
        let second = sha1_hmac::hmac(&sik, &[2u8; 20]).unwrap();
        // By variables: the borrow checker takes no array out of a field straight into a literal.
        let k1 = first.digest;
        let k2 = second.digest;
        Keys { sik, k1, k2 }
    }

    // The key of the cipher.
    pub fn aes_key(self) -> [u8; 16]
        ensures { result ≡ aes_key_of self }
    {
        octets::cut::<16>(&self.k2, 0)
    }
}
