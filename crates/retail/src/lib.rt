// The retailer's ledger: files are loaded in turn, whole or not at all.
#![tactic(auto)]

ghost use Rattle.retail.specs.LoadLaw.{LoadLaw};

// What loading can be relied on for, whatever name and bytes come: which refusal each wrong file meets, and that a granted
// load puts every line and touches nothing else.
pub fn load_law()
    ensures { LoadLaw }
{}
