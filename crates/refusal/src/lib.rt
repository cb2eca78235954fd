// The one table of refusals. Every call of the layer that can refuse answers with one of these.
#![tactic(auto)]

ghost use Rattle.std.specs.Prelude.{◌≡◌};
ghost use Rattle.refusal.specs.Table.{number_of, carried_of};

// A case for each number of the table (docs/RULES.md, section 1); what is in brackets is carried to the caller.
#[derive(Clone, Copy)]
pub enum Refusal {
    NotEnoughData,
    NotIpmiV2_0,
    InvalidPayloadType(u8),
    MismatchingEncryptionState,
    MismatchingAuthenticationState,
    IncorrectIntegrityTrailerLen,
    AuthCodeMismatch,
    UnknownNextHeader(u8),
    IncorrectPayloadLen,
    IncorrectConfidentialityTrailerLen,
    InvalidConfidentialityTrailer,
    NotWholeBlocks,
    PayloadTooLong,
    EncryptedPayloadTooLong,
    OutputTooShort,
    NotRmcpForIpmi,
    NamedStatus(u8),
    UnnamedStatus(u8),
    InvalidPrivilegeLevel(u8),
    ZeroRemoteConsoleSessionId,
    ZeroManagedSystemSessionId,
    IncorrectPayloadLenValue,
    UnknownAlgorithm(u8),
    UnknownBlockType(u8),
    WrongKindOfBlock,
    MessageTagMismatch,
    SessionIdMismatch,
    AlgorithmNotCarried,
    InvalidKeyExchangeAuthCodeLen,
    Declined,
    InvalidIntegrityCheckValue,
    WrongStep,
    InvalidUsername,
    InvalidKgLen,
    PasswordTooLong,
    TooLongToHash,
    AlreadyTaken,
    TooOld,
    UsernameTooLong,
}

impl Refusal {
    // The number that operators know the refusal by. No discriminants: a case that carries a byte has none to cast.
    pub fn number(self) -> u8
        ensures { result ≡ number_of self }
    {
        match self {
            Refusal::NotEnoughData => 1,
            Refusal::NotIpmiV2_0 => 2,
            Refusal::InvalidPayloadType(_) => 3,
            Refusal::MismatchingEncryptionState => 4,
            Refusal::MismatchingAuthenticationState => 5,
            Refusal::IncorrectIntegrityTrailerLen => 6,
            Refusal::AuthCodeMismatch => 7,
            Refusal::UnknownNextHeader(_) => 8,
            Refusal::IncorrectPayloadLen => 9,
            Refusal::IncorrectConfidentialityTrailerLen => 10,
            Refusal::InvalidConfidentialityTrailer => 11,
            Refusal::NotWholeBlocks => 12,
            Refusal::PayloadTooLong => 13,
            Refusal::EncryptedPayloadTooLong => 14,
            Refusal::OutputTooShort => 15,
            Refusal::NotRmcpForIpmi => 16,
            Refusal::NamedStatus(_) => 17,
            Refusal::UnnamedStatus(_) => 18,
            Refusal::InvalidPrivilegeLevel(_) => 19,
            Refusal::ZeroRemoteConsoleSessionId => 20,
            Refusal::ZeroManagedSystemSessionId => 21,
            Refusal::IncorrectPayloadLenValue => 22,
            Refusal::UnknownAlgorithm(_) => 23,
            Refusal::UnknownBlockType(_) => 24,
            Refusal::WrongKindOfBlock => 25,
            Refusal::MessageTagMismatch => 27,
            Refusal::SessionIdMismatch => 28,
            Refusal::AlgorithmNotCarried => 29,
            Refusal::InvalidKeyExchangeAuthCodeLen => 30,
            Refusal::Declined => 31,
            Refusal::InvalidIntegrityCheckValue => 32,
            Refusal::WrongStep => 33,
            Refusal::InvalidUsername => 34,
            Refusal::InvalidKgLen => 35,
            Refusal::PasswordTooLong => 36,
            Refusal::TooLongToHash => 37,
            Refusal::AlreadyTaken => 38,
            Refusal::TooOld => 39,
            Refusal::UsernameTooLong => 40,
        }
    }

    // The byte of the input that goes with the number, where one does.
    pub fn value(self) -> Option<u8>
        ensures { result ≡ carried_of self }
    {
        match self {
            Refusal::InvalidPayloadType(b)
            | Refusal::UnknownNextHeader(b)
            | Refusal::NamedStatus(b)
            | Refusal::UnnamedStatus(b)
            | Refusal::InvalidPrivilegeLevel(b)
            | Refusal::UnknownAlgorithm(b)
            | Refusal::UnknownBlockType(b) => Some(b),
            _ => None,
        }
    }
}
