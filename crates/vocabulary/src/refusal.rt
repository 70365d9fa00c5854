// What a call answers where it does not do what it was asked.
ghost use Rattle.std.proofs.Math.Utf8.{encode};
ghost use Rattle.std.specs.Prelude.{◌≡◌, ◌<◌, [], ◌∷◌, Some};
ghost use Rattle.vocabulary.specs.Refusals.{in_line, letter, notice, plain as of_number, told};

use std::error::Error;
use std::fmt;

// A field of a line of an F5D file.
#[derive(Clone, Copy, PartialEq, Eq, Debug)]
pub enum Field {
    Supply,
    Label,
    Season,
    ActiveIn,
    ActiveOut,
    Reactive1,
    Reactive2,
    Reactive3,
    Reactive4,
    Method,
    Firmness,
    Invoice,
}

impl Field {
    // The letter under which the format lists the field, A to L.
    pub fn letter(self) -> char
        ensures value { result ≡ letter self }
        ensures ascii { result < 128 }
    {
        match self {
            Field::Supply => 'A',
            Field::Label => 'B',
            Field::Season => 'C',
            Field::ActiveIn => 'D',
            Field::ActiveOut => 'E',
            Field::Reactive1 => 'F',
            Field::Reactive2 => 'G',
            Field::Reactive3 => 'H',
            Field::Reactive4 => 'I',
            Field::Method => 'J',
            Field::Firmness => 'K',
            Field::Invoice => 'L',
        }
    }
}

// Why a call was refused. Each case has a number of its own, but that 13 speaks of a name or a line.
#[derive(Clone, Copy, PartialEq, Eq, Debug)]
pub enum Refusal {
    // 1: no hour has this label
    NoSuchLabel,
    // 2: the hour is later than the present one
    AfterPresent,
    // 3: the hour is before the meter's integration
    BeforeIntegration,
    // 4: more than 55,000 Wh in an hour
    TooMuchEnergy,
    // 5: the quality bit says that the reading is invalid
    InvalidReading,
    // 6: the hour is outside the billing period
    OutsideBillingPeriod,
    // 7: a register value is not below the register's size
    RegisterTooLarge,
    // 8: a balance is above 55 kWh for each hour of the billing period
    BalanceTooLarge,
    // 9: the periods' balances do not add up to the total
    PeriodsDiffer,
    // 10: a code is malformed
    MalformedCode,
    // 11: a book's hours, length or register size are not among those allowed
    BookOutOfRange,
    // 12: a word, source, count or bound is not among those listed
    NotListed,
    // 13: no file has this name
    MalformedName,
    // 13: a line is malformed, and this is its first bad field; lines count from 1
    MalformedLine { line: usize, field: Field },
    // 14: a line's hour does not rise, or its supply was left before
    OutOfTurn { line: usize },
    // 15: a missing hour with energy to share has no weight
    NoWeight,
    // 16: no such date from 2000 to 2099
    NoSuchDate,
    // 20: the book is not open
    NotOpen,
    // 21: the book is not published
    NotPublished,
    // 22: the book is not closed, or slip or file are others than the ones in hand
    WrongSlipOrFile,
    // 23: there is no balance to strike
    NoBalance,
    // 24: hours are missing, and no balance says what they come to
    NothingToShare,
    // 25: the billed balance has another count of periods than the calendar
    PeriodCountDiffers,
    // 26: more than 1 kWh for a period that has no hour
    PeriodWithoutHours,
    // 27: an estimate or the customer's own reading contradicts the hours that were read
    EstimateContradicted,
    // 28: the invoice code is that of the book's last publication
    InvoiceRepeated,
    // 29: a file is open
    FileOpen,
    // 30: the date is before the last sealed file's
    DateBeforeLastFile,
    // 31: the date's versions are used up
    VersionsUsedUp,
    // 32: the supply is in the file already
    SupplyInFile,
    // 33: the buffer is too short for what goes into it, a curve's lines, a line or a name
    BufferTooShort,
    // 34: not the file that comes next
    NotTheNextFile,
    // 35: too few places
    TooFewPlaces,
    // 36: the book was closed a million times
    ClosesUsedUp,
}

// A refusal as it is told: number, line (0 for none) and field letter (`-` for none).
#[derive(Clone, Copy, PartialEq, Eq, Debug)]
pub struct Notice {
    pub number: u8,
    pub line: usize,
    pub field: char,
}

// A notice of a line and a field.
fn in_line(number: u8, line: usize, field: char) -> Notice
    requires { field < 128 }
    ensures value { result ≡ in_line number line field }
    ensures ascii { encode result.field ≡ result.field ∷ [] }
{
    Notice {
        number,
        line,
        field,
    }
}

// A notice of no line and no field.
fn plain(number: u8) -> Notice
    ensures value { result ≡ of_number number }
    ensures ascii { encode result.field ≡ result.field ∷ [] }
{
    in_line(number, 0, '-')
}

impl Refusal {
    // The refusal's number, line and field.
    pub fn notice(self) -> Notice
        ensures value { result ≡ notice self }
        ensures ascii { encode result.field ≡ result.field ∷ [] }
    {
        match self {
            Refusal::NoSuchLabel => plain(1),
            Refusal::AfterPresent => plain(2),
            Refusal::BeforeIntegration => plain(3),
            Refusal::TooMuchEnergy => plain(4),
            Refusal::InvalidReading => plain(5),
            Refusal::OutsideBillingPeriod => plain(6),
            Refusal::RegisterTooLarge => plain(7),
            Refusal::BalanceTooLarge => plain(8),
            Refusal::PeriodsDiffer => plain(9),
            Refusal::MalformedCode => plain(10),
            Refusal::BookOutOfRange => plain(11),
            Refusal::NotListed => plain(12),
            Refusal::MalformedName => plain(13),
            Refusal::MalformedLine { line, field } => in_line(13, line, field.letter()),
            Refusal::OutOfTurn { line } => in_line(14, line, '-'),
            Refusal::NoWeight => plain(15),
            Refusal::NoSuchDate => plain(16),
            Refusal::NotOpen => plain(20),
            Refusal::NotPublished => plain(21),
            Refusal::WrongSlipOrFile => plain(22),
            Refusal::NoBalance => plain(23),
            Refusal::NothingToShare => plain(24),
            Refusal::PeriodCountDiffers => plain(25),
            Refusal::PeriodWithoutHours => plain(26),
            Refusal::EstimateContradicted => plain(27),
            Refusal::InvoiceRepeated => plain(28),
            Refusal::FileOpen => plain(29),
            Refusal::DateBeforeLastFile => plain(30),
            Refusal::VersionsUsedUp => plain(31),
            Refusal::SupplyInFile => plain(32),
            Refusal::BufferTooShort => plain(33),
            Refusal::NotTheNextFile => plain(34),
            Refusal::TooFewPlaces => plain(35),
            Refusal::ClosesUsedUp => plain(36),
        }
    }
}

impl fmt::Display for Refusal {
    ghost output = { λ r. Some (told (notice r)) };

    fn fmt<W: fmt::Write>(&self, f: &mut fmt::Formatter<W>) -> fmt::Result {
        let Notice {
            number,
            line,
            field,
        } = self.notice();
        write!(f, "{number};{line};{field};")
    }
}

impl Error for Refusal {}
