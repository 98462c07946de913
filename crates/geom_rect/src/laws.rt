ghost use Rattle.std.specs.Prelude.{◌≡◌, List};
ghost use Rattle.geom_rect.specs.declared.run.Run.{Run};
ghost use Rattle.geom_rect.specs.Run.{IsOpen, AreMaximalRuns};

/// The law of runs: two lists of covered and blocked runs have one list of maximal runs of open cells, so that nothing
/// else meets what `runs` ensures.
pub fn maximal_runs_are_unique()
    ensures { (covered blocked one other : List Run)
        → AreMaximalRuns (IsOpen covered blocked) one → AreMaximalRuns (IsOpen covered blocked) other
        → one ≡ other }
{}
