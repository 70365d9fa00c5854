// What a tariff calendar is.
ghost use Rattle.std.specs.Prelude.{◌≡◌};
ghost use Rattle.tariff.specs.Timetables.{Timetable};

use official_time::Hour;

// A number of tariff periods, 1 to 3, and for every hour one of them. Asking changes nothing.
pub trait Calendar {
    ghost timetable: { Self → Timetable };

    fn periods(&self) -> usize
        ensures { result ≡ (timetable self.now).periods };

    // The tariff period of an hour, counted from 1.
    fn period(&self, hour: Hour) -> usize
        ensures { result ≡ (timetable self.now).period hour.number };
}
