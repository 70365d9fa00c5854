// Worked figures, each a theorem about the definitions that the other crates' contracts cite.
//
// There is nothing to run here. Whoever doubts a definition finds the figures that it gives.
#![tactic(auto)]

ghost use Rattle.std.specs.Prelude.{[], ◌∷◌, Some, None};
ghost use Rattle.worked_figures.specs.Closes.{ClosedTo, Computed, NightWritten, RegisterRefused, Registers, Shared};
ghost use Rattle.worked_figures.specs.Exchanges.{NightAfter, NightExchanged};
ghost use Rattle.worked_figures.specs.Labels.{Labelled};

pub fn worked_figures()
    // In the night of 31 March 2024 the clock goes from 02:00 to 03:00.
    ensures before_spring { Labelled 212545 2024 3 31 1 0 }
    ensures after_spring { Labelled 212546 2024 3 31 3 1 }
    // In the night of 27 October 2024 it shows 02:00 twice.
    ensures before_autumn { Labelled 217585 2024 10 27 2 1 }
    ensures after_autumn { Labelled 217586 2024 10 27 2 0 }
    // 1,000 Wh over three equal weights.
    ensures shared { Shared 1000 1 1 1 333 333 334 }
    // Read hours stay within 1 kWh of a balance of 3 kWh, and share it where they are further away.
    ensures kept { ClosedTo (Some 2000 ∷ Some 2000 ∷ []) 3 (2000 ∷ 2000 ∷ []) (1 ∷ 1 ∷ []) }
    ensures rescaled { ClosedTo (Some 2001 ∷ Some 2000 ∷ []) 3 (1500 ∷ 1500 ∷ []) (3 ∷ 3 ∷ []) }
    // With an hour missing.
    ensures filled { ClosedTo (Some 4000 ∷ None ∷ []) 3 (4000 ∷ 0 ∷ []) (1 ∷ 2 ∷ []) }
    ensures cut_down { ClosedTo (Some 5000 ∷ None ∷ []) 3 (3000 ∷ 0 ∷ []) (3 ∷ 2 ∷ []) }
    // A register of 100,000 kWh begins again from 0; backwards it is far more than four hours can have.
    ensures register { Registers 4 99990 5 15 }
    ensures backwards { RegisterRefused 4 10 5 8 }
    // Without a balance, half a kWh is rounded up.
    ensures rounded_down { Computed 1499 1 }
    ensures rounded_up { Computed 1500 2 }
    // Four hours of that October night, two of them missing, as they stand in a file.
    ensures written { NightWritten }
    // The same night from its readings to the retailer's ledger, every call granted; and loads that are refused then.
    ensures exchanged { NightExchanged }
    ensures refused_after { NightAfter }
{}

#[cfg(test)]
mod tests {
    use official_time::{Date, Hour, Label};
    use std::test::Fail;

    // One number from all parts of a label and of a place on the clock, and what came before.
    fn mixed(before: u64, hour: Hour) -> u64 {
        let Label {
            date,
            hour: clock,
            flag,
            ..
        } = hour.label();
        let parts = [
            date.year,
            date.month,
            date.day,
            clock,
            flag,
            hour.clock_day().number(),
            hour.clock_place(),
        ];
        let mut digest = before;
        for part in parts {
            digest = digest.wrapping_mul(1_000_003).wrapping_add(u64::from(part));
        }
        digest
    }

    // The expected number is worked out from the time zone database: oracle/tariff_day.py --digest.
    #[test]
    fn all_hours_agree_with_the_official_clock(rt: HostRuntime) -> Result<(), Fail> {
        let mut digest = 0;
        for number in 1..876_600 {
            let hour = Hour::new(number).ok_or_else(|| Fail::new("no such hour"))?;
            digest = mixed(digest, hour);
        }
        assert_eq!(rt; digest, 18_143_043_138_349_695_466);
        Ok(())
    }

    fn label(year: u32, month: u32, day: u32, hour: u32, flag: u32) -> Label {
        Label {
            date: Date { year, month, day },
            hour,
            minute: 0,
            second: 0,
            flag,
        }
    }

    // The hour that spring skips, flags that are not in force or none, dates and clocks that are none.
    #[test]
    fn labels_that_no_hour_has_are_refused(rt: HostRuntime) {
        let none = [
            label(2024, 3, 31, 2, 0),
            label(2024, 3, 31, 2, 1),
            label(2024, 3, 31, 3, 0),
            label(2024, 10, 27, 2, 2),
            label(2024, 5, 8, 12, 0),
            label(2024, 5, 8, 24, 1),
            label(2024, 2, 30, 5, 0),
            label(2000, 1, 1, 0, 0),
        ];
        for written in none {
            assert!(rt; written.hour().is_err());
        }
        assert!(rt; label(2024, 10, 27, 2, 0).hour().is_ok());
    }
}
