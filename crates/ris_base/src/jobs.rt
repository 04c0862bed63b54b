use crate::Specs;

/// What a command line asks for: to replay a script with some analyses, or to make a script from a seed and replay it.
#[derive(Drop)]
pub enum Job {
    Replay {
        threads: bool,
        workers: u32,
        specs: Specs,
    },
    Demo {
        seed: u32,
        size: u32,
        workers: u32,
    },
}
