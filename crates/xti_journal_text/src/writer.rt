//! The text of a journal, written while its entries come.

ghost use Rattle.std.specs.Prelude.{◌≡◌, [], OnOk, OnErr, IfOk};
ghost use Rattle.xti_journal_text.specs.JournalText.{head_text};
ghost use Rattle.xti_journal_text.specs.Writing.{TookOne, IsWhole};

use crate::journal::{put_end, put_entry, put_head, put_stalls};
use std::alloc::AllocError;
use std::marker::Model;
use xti_base::Octets;
use xti_model::{Entry, Providers, Stalls};

/// A journal's text up to its last entry so far. Contracts see the text, and how many entries it has.
#[derive(Drop)]
pub struct JournalWriter {
    text: Vec<u8>,
    count: u64,
}

impl Model for JournalWriter {
    ghost use Rattle.std.specs.Prelude.{ℕ, List};

    ghost Value = { List ℕ × ℕ };

    ghost view = { λ w. (w.text.items, w.count) };
}

impl JournalWriter {
    /// A journal with no entry yet, in the room of bytes that are done with; `Err` is out of memory.
    pub fn begin(mut room: Vec<u8>, p: &Providers) -> Result<JournalWriter, AllocError>
        ensures { IfOk result (λ w. w ≡ (head_text p.now, 0)) }
    {
        room.clear();
        put_head(&mut room, p)?;
        Ok(JournalWriter {
            text: room,
            count: 0,
        })
    }

    /// Writes the line of the next entry; `Err` is out of memory, and nothing is left of the journal then.
    pub fn add(&mut self, entry: &Entry) -> Result<(), AllocError>
        ensures one_more { OnOk result (TookOne self.old entry.now self.new) }
        ensures emptied { OnErr result (self.new ≡ ([], 0)) }
    {
        let added = self.put_next(entry);
        if added.is_err() {
            self.text.clear();
            self.count = 0;
        }
        added
    }

    // The line of the next entry, after which an error leaves a part of it.
    #[inline(always)]
    fn put_next(&mut self, entry: &Entry) -> Result<(), AllocError>
        ensures { OnOk result (TookOne self.old entry.now self.new) }
    {
        // So many entries would find no memory for their lines.
        let Some(count) = self.count.checked_add(1) else {
            return Err(AllocError);
        };
        put_entry(&mut self.text, count, entry)?;
        self.count = count;
        Ok(())
    }

    /// The whole text, after whose entries the stall lines stand; `Err` is out of memory.
    #[tactic(auto, unfolding(crate::specs::JournalText::journal_text))]
    pub fn end(self, stalls: &Stalls) -> Result<Octets, AllocError>
        ensures { IfOk result (λ text. IsWhole self stalls.now text) }
    {
        let JournalWriter { mut text, count } = self;
        put_stalls(&mut text, stalls.as_slice()).and(put_end(&mut text, count))?;
        Ok(Octets::from_vec(text))
    }
}
