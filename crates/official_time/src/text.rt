// Dates and labels as text.
ghost use Rattle.std.specs.Prelude.{◌≡◌, ℕ, ◌<◌, [], ◌∷◌, Some, MatchOption, MatchResult, ◌≢◌};
ghost use Rattle.official_time.specs.Texts.{date_text, label_text, Short, two_digits};
ghost use Rattle.official_time.specs.declared.date.Date.{Date};
ghost use Rattle.vocabulary.specs.Refusals.{notice, plain};

use crate::date::Date;
use crate::label::Label;
use std::fmt;
use vocabulary::Refusal;

// The number that two digits write.
fn two_digits(tens: u8, ones: u8) -> Option<u32>
    ensures { MatchOption result ((n : ℕ) → two_digits n ≢ tens ∷ ones ∷ []) (λ n. (n < 100) × (two_digits n ≡ tens ∷ ones ∷ [])) }
{
    if tens.is_ascii_digit() && ones.is_ascii_digit() {
        Some(10 * u32::from(tens - b'0') + u32::from(ones - b'0'))
    } else {
        None
    }
}

impl fmt::Display for Date {
    ghost output = { λ d. Some (date_text d) };

    fn fmt<W: fmt::Write>(&self, f: &mut fmt::Formatter<W>) -> fmt::Result {
        let century = self.year / 100 % 100;
        let year = self.year % 100;
        let month = self.month % 100;
        let day = self.day % 100;
        write!(f, "{century:02}{year:02}/{month:02}/{day:02}")
    }
}

impl fmt::Display for Label {
    ghost output = { λ l. Some (label_text l) };

    fn fmt<W: fmt::Write>(&self, f: &mut fmt::Formatter<W>) -> fmt::Result {
        let date = self.date;
        write!(f, "{date} {:02}:{:02}", self.hour % 100, self.minute % 100)
    }
}

// The date that a text writes as aaaa/mm/dd, the only one; any other text is refused with 16. Whether there is
// such a date, `day` says.
impl TryFrom<&[u8]> for Date {
    type Error = Refusal;

    ghost try_from_gives = { λ text r. MatchResult r (λ d. Short d × (date_text d ≡ text.now) × ((other : Date) → Short other → date_text other ≡ text.now → other ≡ d)) (λ e. (notice e ≡ plain 16) × ((d : Date) → Short d → date_text d ≢ text.now)) };

    fn try_from(text: &[u8]) -> Result<Date, Refusal> {
        read_parts(text).ok_or(Refusal::NoSuchDate)
    }
}

fn read_parts(text: &[u8]) -> Option<Date>
    ensures { MatchOption result ((d : Date) → Short d → date_text d ≢ text.now) (λ d. Short d × (date_text d ≡ text.now)) }
{
    let [a, b, c, d, b'/', e, f, b'/', g, h] = text else {
        return None;
    };
    let century = two_digits(*a, *b)?;
    let year = two_digits(*c, *d)?;
    let month = two_digits(*e, *f)?;
    let day = two_digits(*g, *h)?;
    Some(Date {
        year: 100 * century + year,
        month,
        day,
    })
}
