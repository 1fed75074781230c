//! The words of a command line.

ghost use Rattle.std.specs.Prelude.{◌≡◌, ◌++◌, ◌∷◌, [], IfOk, IsErrOf, None, OnOk, OnErr, Some};
ghost use Rattle.xti_command.specs.Words.{AreTaken, NamesNone, command_of};

use crate::command::{Command, WordsFail, matched, matches};
use std::alloc::{AllocError, Global};
use std::marker::Model;

/// The words of a command line, without the program's own name.
#[derive(Drop)]
pub struct Words {
    alloc: Global,
    words: Vec<String>,
}

impl Model for Words {
    ghost use Rattle.std.specs.Prelude.{ℕ, List};
    ghost use Rattle.xti_command.specs.Words.{texts};

    ghost Value = { List (List ℕ) };

    ghost view = { λ w. texts w.words.items };
}

impl Words {
    /// No words. Takes no memory.
    pub fn new(alloc: Global) -> Words
        ensures { result ≡ [] }
    {
        Words {
            alloc,
            words: Vec::new(alloc),
        }
    }

    /// Adds a word at the end; where memory runs out the words are as before.
    pub fn push(&mut self, word: &str) -> Result<(), AllocError>
        ensures ok { OnOk result (self.new ≡ self.old ++ word.now ∷ []) }
        ensures err { OnErr result (self.new ≡ self.old) }
    {
        let copy = String::from_str(self.alloc, word)?;
        self.words.push(copy)?;
        Ok(())
    }

    /// The command that the words are, as `clap` reads them: one word that names it.
    ///
    /// `Refused` exactly where they are none; `OutOfMemory` where memory runs out.
    pub fn command(&self) -> Result<Command, WordsFail>
        ensures found { IfOk result (λ command. command_of self.now ≡ Some command) }
        ensures refused { IsErrOf result WordsFail.Refused → command_of self.now ≡ None }
        ensures taken { AreTaken self.now → IsErrOf result WordsFail.Refused → NamesNone self.now }
    {
        let matches = matches(self.alloc, self.words.as_slice())?;
        matched(&matches).ok_or(WordsFail::Refused)
    }
}
