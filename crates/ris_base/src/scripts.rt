use crate::{CommandLists, Format, Triples};

/// What a script spells: its format, how many vertices there are at place 0, how many sessions, the triples of place 0,
/// and the commands of each session.
#[derive(Drop)]
pub struct Script {
    pub format: Format,
    pub vertices: u32,
    pub sessions: u32,
    pub base: Triples,
    pub commands: CommandLists,
}

/// Why a record is a fault. docs/FORMAT.md says when each holds.
#[derive(Clone, Copy, Debug, PartialEq, Eq)]
pub enum Cause {
    Header,
    Base,
    Field,
    Session,
    Left,
    Op,
    Analysis,
    Inside,
    Close,
    Parts,
}
