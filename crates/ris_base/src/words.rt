ghost use Rattle.std.specs.Prelude.{◌≡◌, [], ◌∷◌, ◌++◌, length, OnOk, OnErr, slice_get};
ghost use Rattle.std.specs.Option.{option_copied};

use crate::NoMemory;
use std::alloc::Global;
use std::marker::Model;

/// The words of a command line without the program's name, each seen as its bytes.
#[derive(Drop)]
pub struct Words {
    words: Vec<String>,
    alloc: Global,
}

impl Model for Words {
    ghost use Rattle.std.specs.Prelude.{List, ℕ, map};
    ghost use Rattle.std.specs.String.{string_bytes};

    ghost Value = { List (List ℕ) };

    ghost view = { λ w. map string_bytes w.words.items };
}

impl Words {
    /// No words. It takes no memory.
    pub fn new(alloc: Global) -> Words
        ensures { result ≡ [] }
    {
        Words {
            words: Vec::new(alloc),
            alloc,
        }
    }

    /// One word more, at the end. After `NoMemory` the words are as before.
    pub fn push(&mut self, word: &str) -> Result<(), NoMemory>
        ensures ok { OnOk result (self.new ≡ self.old ++ word.now ∷ []) }
        ensures err { OnErr result (self.new ≡ self.old) }
    {
        let copy = String::from_str(self.alloc, word)?;
        self.words.push(copy)?;
        Ok(())
    }

    /// The number of words.
    pub fn len(&self) -> u64
        ensures { result ≡ length self.now }
    {
        self.words.len() as u64
    }

    /// The word number `k`, counted from 0. `None` exactly where there is none.
    pub fn get(&self, k: u64) -> Option<&str>
        ensures { option_copied result ≡ slice_get self.now k }
    {
        match self.words.get(k as usize) {
            Some(word) => Some(word.as_str()),
            None => None,
        }
    }
}
