ghost use Rattle.ris_history.specs.Parts.{HistoriesHaveParts};

/// Each part of a history is what the records for which it stands make it: the front, the floor, the sessions' marks, which of them
/// have left, the changes held, and at each place from the floor on the values, the parents and the moved vertices.
pub fn parts_law()
    ensures { HistoriesHaveParts }
{}
