// A supply's book: the readings and balances of a billing period, and the curve that it is closed to.
#![tactic(auto)]

ghost use Rattle.book.specs.BookLaw.{BookLaw};

// What a book can be relied on for, whatever calls it gets: where a close is granted, its curve is right, has each hour
// of the billing period once, and can be written as lines.
pub fn book_law()
    ensures { BookLaw }
{}
