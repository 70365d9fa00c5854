// An office and its retailer together: any list of the eleven calls, and what both can rely on after it.
#![tactic(auto)]

ghost use Rattle.exchange.specs.Law.{ExchangeLaw};

// The law of the exchange: for every setting that fits and every list of calls, granted or refused, whatever calendar and
// profile each close brings, the ledger holds what was published in the files that were offered, and each granted close
// gave the curve that the closing rules give.
pub fn exchange_law()
    ensures { ExchangeLaw }
{}
