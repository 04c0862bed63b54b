ghost use Rattle.ris_epoch.specs.Laws.{AccountsAreEpochs, AccountsKeepRight};

/// The account of a turn is an epoch, and takes no more visits than the epoch may. That there is no such number is impossible.
pub fn turn_law()
    ensures { AccountsAreEpochs }
{}

/// The account of a turn keeps records right.
pub fn right_law()
    ensures { AccountsKeepRight }
{}
