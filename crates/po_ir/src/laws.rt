// Laws of graphs: ways through them, and the sites of calls.
ghost use Rattle.po_ir.specs.Valid.{WaysStayWithin};
ghost use Rattle.po_ir.specs.Calls.{SitesAreCalls};

/// The nodes of a way through a valid graph are there.
pub fn ways_stay_within()
    ensures { WaysStayWithin }
{}

/// The sites that are listed for a function are the nodes that call it, and no others.
pub fn sites_are_calls()
    ensures { SitesAreCalls }
{}
