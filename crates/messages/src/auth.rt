// The algorithms that a session can be offered, by name, with their codes on the wire; the privilege levels.
ghost use Rattle.std.specs.Prelude.{◌≡◌};
ghost use Rattle.refusal.specs.Answer.{told_as};
ghost use Rattle.messages.specs.Auth.{authentication_code, integrity_code, confidentiality_code, coded, is_level};

use refusal::Refusal;

#[derive(Clone, Copy)]
pub enum AuthenticationAlgorithm {
    RakpNone = 0,
    RakpHmacSha1 = 1,
    RakpHmacMd5 = 2,
    RakpHmacSha256 = 3,
}

impl AuthenticationAlgorithm {
    pub fn code(self) -> u8
        ensures { result ≡ authentication_code self }
    {
        self as u8
    }
}

impl TryFrom<u8> for AuthenticationAlgorithm {
    type Error = Refusal;

    ghost try_from_gives = { λ code answer. told_as authentication_code answer ≡ coded 0 code };

    #[tactic(auto, unfolding(crate::specs::Auth::coded, refusal::specs::Order::need))]
    fn try_from(code: u8) -> Result<Self, Refusal> {
        match code {
            0 => Ok(AuthenticationAlgorithm::RakpNone),
            1 => Ok(AuthenticationAlgorithm::RakpHmacSha1),
            2 => Ok(AuthenticationAlgorithm::RakpHmacMd5),
            3 => Ok(AuthenticationAlgorithm::RakpHmacSha256),
            _ => Err(Refusal::UnknownAlgorithm(code)),
        }
    }
}

#[derive(Clone, Copy)]
pub enum IntegrityAlgorithm {
    None = 0,
    HmacSha1_96 = 1,
    HmacMd5_128 = 2,
    Md5_128 = 3,
    HmacSha256_128 = 4,
}

impl IntegrityAlgorithm {
    pub fn code(self) -> u8
        ensures { result ≡ integrity_code self }
    {
        self as u8
    }
}

impl TryFrom<u8> for IntegrityAlgorithm {
    type Error = Refusal;

    ghost try_from_gives = { λ code answer. told_as integrity_code answer ≡ coded 1 code };

    #[tactic(auto, unfolding(crate::specs::Auth::coded, refusal::specs::Order::need))]
    fn try_from(code: u8) -> Result<Self, Refusal> {
        match code {
            0 => Ok(IntegrityAlgorithm::None),
            1 => Ok(IntegrityAlgorithm::HmacSha1_96),
            2 => Ok(IntegrityAlgorithm::HmacMd5_128),
            3 => Ok(IntegrityAlgorithm::Md5_128),
            4 => Ok(IntegrityAlgorithm::HmacSha256_128),
            _ => Err(Refusal::UnknownAlgorithm(code)),
        }
    }
}

#[derive(Clone, Copy)]
pub enum ConfidentialityAlgorithm {
    None = 0,
    AesCbc128 = 1,
    Xrc4_128 = 2,
    Xrc4_40 = 3,
}

impl ConfidentialityAlgorithm {
    pub fn code(self) -> u8
        ensures { result ≡ confidentiality_code self }
    {
        self as u8
    }
}

impl TryFrom<u8> for ConfidentialityAlgorithm {
    type Error = Refusal;

    ghost try_from_gives = { λ code answer. told_as confidentiality_code answer ≡ coded 2 code };

    #[tactic(auto, unfolding(crate::specs::Auth::coded, refusal::specs::Order::need))]
    fn try_from(code: u8) -> Result<Self, Refusal> {
        match code {
            0 => Ok(ConfidentialityAlgorithm::None),
            1 => Ok(ConfidentialityAlgorithm::AesCbc128),
            2 => Ok(ConfidentialityAlgorithm::Xrc4_128),
            3 => Ok(ConfidentialityAlgorithm::Xrc4_40),
            _ => Err(Refusal::UnknownAlgorithm(code)),
        }
    }
}

// Whether a byte is a privilege level. Levels stay bytes: Begin takes any byte and refuses one that is no level with 19 and that byte, and
// `open_request` and `response_numbers` (specs/OpenSession) promise the byte.
#[tactic(auto, unfolding(crate::specs::Auth::is_level))]
pub fn is_level(b: u8) -> bool
    ensures { result ≡ is_level b }
{
    (1..=5).contains(&b)
}
