// Laws of refusals: there is one.
ghost use Rattle.po_symbols.specs.Linking.{OneRefusal};

/// Files that can't be joined are refused for one name, one pair of files and one of the two causes.
pub fn refusal_is_one()
    ensures { OneRefusal }
{}
