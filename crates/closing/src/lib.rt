// What a billing period is closed to: sharing by running sums, the closing rules, and what a curve can be relied on for.
//
// Nothing here knows books or files: a close goes by the hours of a period, the balances that are held, and what a
// calendar and a profile mean.
#![tactic(auto)]

ghost use Rattle.closing.specs.Curves.{ClosingLaw};
ghost use Rattle.closing.specs.Sharing.{AddsUp, NearlyExact};

mod balance;
mod billing_period;
mod curve;
mod figures;
mod period;
mod rule;
mod share;

pub use balance::{Balance, Source};
pub use billing_period::BillingPeriod;
pub use period::ClosedHour;
pub use vocabulary::Method;

// What running sums give, for all weights: the portions add up, and each is less than one unit from its exact share.
pub fn sharing_law()
    ensures adds_up { AddsUp }
    ensures nearly_exact { NearlyExact }
{}

// What the closing rules give, for all hours, balances, calendars and profiles that the tests of a close let through:
// each tariff period within 1 kWh, each read hour as it was read but in the one stated case, each missing hour less than
// 1 Wh from its share.
pub fn closing_law()
    ensures { ClosingLaw }
{}
