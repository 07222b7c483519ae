// Why a call is refused.
ghost use Rattle.std.specs.Prelude.{◌≡◌};
ghost use Rattle.questions.specs.Refusals.{number_of, number_in};
ghost use Rattle.questions.specs.declared.refusal.Refusal.TheVariants.{KeyLength};

use std::error::Error;
use std::fmt;

// The question answered 'no', by its number. No call answers 10, which unpad gave before request 02.
#[derive(Clone, Copy, Debug, PartialEq, Eq)]
pub enum Refusal {
    KeyLength = 1,
    IvLength = 2,
    UnitLength = 3,
    NotOpened = 4,
    Closed = 5,
    Bits = 6,
    PartUnit = 7,
    Room = 8,
    UnitLimit = 9,
    NoOneBit = 10,
    NoBlock = 11,
    NotFormed = 12,
    MessageLength = 13,
    CounterLength = 14,
    CounterLimit = 15,
    OtherMessage = 16,
}

impl From<Refusal> for u8 {
    ghost from_gives = { λ refusal number. number ≡ number_of refusal };

    fn from(refusal: Refusal) -> u8 {
        refusal as u8
    }
}

impl From<aes::KeyLength> for Refusal {
    ghost from_gives = { λ _ refusal. refusal ≡ KeyLength };

    fn from(_error: aes::KeyLength) -> Refusal {
        Self::KeyLength
    }
}

impl fmt::Display for Refusal {
    fn fmt<W: fmt::Write>(&self, f: &mut fmt::Formatter<W>) -> fmt::Result {
        f.write_str(match self {
            Refusal::KeyLength => "the key is not 16, 24 or 32 bytes long",
            Refusal::IvLength => "the IV is not 16 bytes long, or in ECB not empty",
            Refusal::UnitLength => "n is not 1 to 128 in CFB, or not 128 in another mode",
            Refusal::NotOpened => "the session is none that an opening gave",
            Refusal::Closed => "the session is closed",
            Refusal::Bits => "the input has not as many bits, or they are too many",
            Refusal::PartUnit => "the data is not whole units",
            Refusal::Room => "the output has no room from the place on",
            Refusal::UnitLimit => "the session has no units left",
            Refusal::NoOneBit => "the padded text has no 1 bit",
            Refusal::NoBlock => "the ciphertext is not whole blocks, or has no such block",
            Refusal::NotFormed => "the input is not of the form",
            Refusal::MessageLength => "the message is not whole bytes, or no longer than a block",
            Refusal::CounterLength => "m is not 1 to 128 in CTR, or not 128 in another mode",
            Refusal::CounterLimit => "the counter has no blocks left",
            Refusal::OtherMessage => "the counter block is not one of the message",
        })
    }
}

impl Error for Refusal {}

// The number of an answer: 0 where it was accepted.
pub fn number<T: Drop>(answer: Result<T, Refusal>) -> u8
    ensures { result ≡ number_in answer }
{
    match answer {
        Ok(_) => 0,
        Err(refusal) => refusal.into(),
    }
}
