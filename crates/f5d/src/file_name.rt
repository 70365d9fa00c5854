// What a file's name tells.
ghost use Rattle.std.specs.Prelude.{◌≡◌, true, false, MatchResult};
ghost use Rattle.official_time.specs.Dates.{is_date};
ghost use Rattle.vocabulary.specs.Refusals.{notice, plain};

use crate::name::Word;
use official_time::Date;
use vocabulary::{ParticipantCode, Refusal};

// The name of a file. Its date is a real one, so that every such name is one that files can have.
#[derive(Clone, Copy)]
pub struct FileName {
    word: Word,
    distributor: ParticipantCode,
    retailer: ParticipantCode,
    date: Date,
    version: u8,
    ghost real: { is_date date ≡ true },
}

impl FileName {
    // Refused with 16 where there is no such date from 2000 to 2099.
    pub fn new(
        word: Word,
        distributor: ParticipantCode,
        retailer: ParticipantCode,
        date: Date,
        version: u8,
    ) -> Result<FileName, Refusal>
        ensures { MatchResult result (λ n. (is_date date ≡ true) × (n.word ≡ word) × (n.distributor ≡ distributor) × (n.retailer ≡ retailer) × (n.date ≡ date) × (n.version ≡ version)) (λ e. (notice e ≡ plain 16) × (is_date date ≡ false)) }
    {
        date.day()?;
        Ok(FileName {
            word,
            distributor,
            retailer,
            date,
            version,
        })
    }

    pub fn word(&self) -> Word
        ensures { result ≡ self.now.word }
    {
        self.word
    }

    pub fn distributor(&self) -> &ParticipantCode
        ensures { result.now ≡ self.now.distributor }
    {
        &self.distributor
    }

    pub fn retailer(&self) -> &ParticipantCode
        ensures { result.now ≡ self.now.retailer }
    {
        &self.retailer
    }

    // The date is a real one.
    pub fn date(&self) -> Date
        ensures value { result ≡ self.now.date }
        ensures real { is_date result ≡ true }
    {
        self.date
    }

    pub fn version(&self) -> u8
        ensures { result ≡ self.now.version }
    {
        self.version
    }
}
