// The law of what an environment shows.
ghost use Rattle.po_scopes.specs.Laws.{EnvironmentShowsWhatIsInForce};

/// An environment shows what is in force in its file. It does nothing.
pub fn environment_shows_what_is_in_force()
    ensures { EnvironmentShowsWhatIsInForce }
{}
