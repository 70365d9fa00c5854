// The distributor's outbox: files of curves are opened, published in and sealed.
#![tactic(auto)]

ghost use Rattle.outbox.specs.OutboxLaw.{OutboxLaw};

// What an outbox can be relied on for: an opened file's name comes next after the last sealed one's, a publication puts
// its curve behind what is there, and the bytes of a sealed file are the lines of what was published in it.
pub fn outbox_law()
    ensures { OutboxLaw }
{}
