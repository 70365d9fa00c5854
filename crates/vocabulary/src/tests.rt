use crate::codes::code::*;
use crate::codes::invoice::*;
use crate::energy::*;
use crate::refusal::*;
use std::test::Fail;

#[test]
fn refusals_are_told(rt: HostRuntime) -> Result<(), Fail> {
    let line = 1;
    let field = Field::Supply;
    let table = [
        (Refusal::NoSuchLabel, "1;0;-;"),
        (Refusal::AfterPresent, "2;0;-;"),
        (Refusal::BeforeIntegration, "3;0;-;"),
        (Refusal::TooMuchEnergy, "4;0;-;"),
        (Refusal::InvalidReading, "5;0;-;"),
        (Refusal::OutsideBillingPeriod, "6;0;-;"),
        (Refusal::RegisterTooLarge, "7;0;-;"),
        (Refusal::BalanceTooLarge, "8;0;-;"),
        (Refusal::PeriodsDiffer, "9;0;-;"),
        (Refusal::MalformedCode, "10;0;-;"),
        (Refusal::BookOutOfRange, "11;0;-;"),
        (Refusal::NotListed, "12;0;-;"),
        (Refusal::MalformedName, "13;0;-;"),
        (Refusal::MalformedLine { line, field }, "13;1;A;"),
        (Refusal::OutOfTurn { line: 7 }, "14;7;-;"),
        (Refusal::NoWeight, "15;0;-;"),
        (Refusal::NoSuchDate, "16;0;-;"),
        (Refusal::NotOpen, "20;0;-;"),
        (Refusal::NotPublished, "21;0;-;"),
        (Refusal::WrongSlipOrFile, "22;0;-;"),
        (Refusal::NoBalance, "23;0;-;"),
        (Refusal::NothingToShare, "24;0;-;"),
        (Refusal::PeriodCountDiffers, "25;0;-;"),
        (Refusal::PeriodWithoutHours, "26;0;-;"),
        (Refusal::EstimateContradicted, "27;0;-;"),
        (Refusal::InvoiceRepeated, "28;0;-;"),
        (Refusal::FileOpen, "29;0;-;"),
        (Refusal::DateBeforeLastFile, "30;0;-;"),
        (Refusal::VersionsUsedUp, "31;0;-;"),
        (Refusal::SupplyInFile, "32;0;-;"),
        (Refusal::BufferTooShort, "33;0;-;"),
        (Refusal::NotTheNextFile, "34;0;-;"),
        (Refusal::TooFewPlaces, "35;0;-;"),
        (Refusal::ClosesUsedUp, "36;0;-;"),
    ];
    for (refusal, text) in table {
        let told = refusal.to_string(rt.alloc())?;
        assert_eq!(rt; told.as_str(), text);
    }
    Ok(())
}

#[test]
fn supply_codes_are_22_digits_or_capitals(rt: HostRuntime) -> Result<(), Fail> {
    let code = SupplyCode::try_from(b"ES0000000000000001TR0F".as_slice())?;
    assert_eq!(rt; code.as_bytes(), b"ES0000000000000001TR0F".as_slice());
    assert!(rt; SupplyCode::try_from(b"ES0000000000000001TR0".as_slice()).is_err());
    assert!(rt; SupplyCode::try_from(b"ES0000000000000001TR0FF".as_slice()).is_err());
    assert!(rt; SupplyCode::try_from(b"ES0000000000000001TR0f".as_slice()).is_err());
    Ok(())
}

#[test]
fn participant_codes_are_4_digits_or_capitals(rt: HostRuntime) -> Result<(), Fail> {
    let code = ParticipantCode::try_from(b"0021".as_slice())?;
    assert_eq!(rt; code.as_bytes(), b"0021".as_slice());
    assert!(rt; ParticipantCode::try_from(b"21".as_slice()).is_err());
    Ok(())
}

#[test]
fn invoice_codes_are_1_to_26_visible_bytes(rt: HostRuntime) -> Result<(), Fail> {
    let code = InvoiceCode::try_from(b"F0001".as_slice())?;
    assert_eq!(rt; code.as_bytes(), b"F0001".as_slice());
    assert!(rt; InvoiceCode::try_from(b"".as_slice()).is_err());
    assert!(rt; InvoiceCode::try_from(b"F00000000000000000000000001".as_slice()).is_err());
    assert!(rt; InvoiceCode::try_from(b"F;0001".as_slice()).is_err());
    assert!(rt; InvoiceCode::try_from(b"F 0001".as_slice()).is_err());
    Ok(())
}

#[test]
fn energies_stay_in_their_unit(rt: HostRuntime) {
    assert_eq!(rt; Wh::from(KWh(3)), Wh(3000));
    assert_eq!(rt; Wh(1).checked_add(Wh(2)), Some(Wh(3)));
    assert_eq!(rt; KWh(u32::MAX).checked_add(KWh(1)), None);
}
