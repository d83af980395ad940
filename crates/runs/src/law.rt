// The law over runs.
ghost use Rattle.runs.specs.Runs.{RunsObey};

/// Every run of calls obeys the law, where each call does what its method's contract says. The function does nothing: its contract is the theorem.
pub fn runs_obey()
    ensures { RunsObey }
{}
