ghost use Rattle.ris_legal.specs.Laws.{AccountsAreLegal, CellsCommute, EpochsHappen, RunsAreLegal, StepsKeep};

/// Each account is legal.
pub fn account_law()
    ensures { AccountsAreLegal }
{}

/// What a state of the core machine keeps holds of each opened state, and each step keeps it.
pub fn step_law()
    ensures { StepsKeep }
{}

/// For every list of steps from an opened state, the commands, the replies (given or withheld) and the lines are legal.
pub fn run_law()
    ensures { RunsAreLegal }
{}

/// Cells commute: in any order that keeps each stripe's, each applied candidate is accepted where it stands and still a candidate
/// there, and each refused one lacks its copy there.
pub fn cells_law()
    ensures { CellsCommute }
{}

/// An epoch of the batch of a state is a run of that state.
pub fn epoch_law()
    ensures { EpochsHappen }
{}
