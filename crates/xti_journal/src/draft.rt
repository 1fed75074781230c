//! The journal that is read so far.

ghost use Rattle.std.specs.Prelude.{◌≡◌, ◌≤◌, ◌<◌, ◌++◌, ◌∷◌, [], length, IfOk, OnOk};
ghost use Rattle.xti_base.specs.declared.limits.TheConstants.{LAST_WORKER};
ghost use Rattle.xti_journal.specs.Grammar.{verb_after, last_verb};
ghost use Rattle.xti_journal.specs.Reading.{last_worker};
ghost use Rattle.xti_journal.specs.Known.{Entered, Stalled};

use crate::forms::verb_after;
use std::alloc::{AllocError, Global};
use std::marker::Model;
use xti_base::Items;
use xti_base::limits::{LAST_WORKER, WORKERS};
use xti_model::{Entry, Journal, Providers, StallLine, Version};
use xti_verbs::Verb;

/// The journal that is read so far.
#[derive(Drop)]
pub(crate) struct Draft {
    providers: Providers,
    entries: Vec<Entry>,
    stalls: Vec<StallLine>,
    /// The call that each worker began last.
    verbs: [Option<Verb>; WORKERS],
    /// The worker of the last stall line.
    last: Option<u32>,
}

impl Model for Draft {
    ghost use Rattle.xti_model.specs.declared.script.Journal.{Journal};
    ghost use Rattle.xti_journal.specs.Known.{Knows};

    ghost Value = { Journal };

    ghost view = { λ d. record { providers = d.providers; entries = d.entries.items; stalls = d.stalls.items } };

    ghost invariant = { λ d. Knows d.entries.items d.stalls.items d.verbs d.last };
}

impl Draft {
    /// No entries.
    pub(crate) fn new(alloc: Global, providers: Providers) -> Draft
        ensures { result ≡ record { providers = providers; entries = []; stalls = [] } }
    {
        Draft {
            providers,
            entries: Vec::new(alloc),
            stalls: Vec::new(alloc),
            verbs: [None; WORKERS],
            last: None,
        }
    }

    /// The version of the journal.
    pub(crate) fn version(&self) -> Version
        ensures { result ≡ self.now.providers.version }
    {
        self.providers.version
    }

    /// The call that the worker began last, if any.
    pub(crate) fn verb(&self, worker: u32) -> Option<Verb>
        requires { worker ≤ LAST_WORKER }
        ensures { result ≡ last_verb self.now.entries worker }
    {
        self.verbs[worker as usize]
    }

    /// The worker of the last stall line, if any.
    pub(crate) fn last_worker(&self) -> Option<u32>
        ensures { result ≡ last_worker self.now.stalls }
    {
        self.last
    }

    /// How many entries there are.
    pub(crate) fn count(&self) -> usize
        ensures count { result ≡ length self.now.entries }
        ensures small { result < 9223372036854775808 }
    {
        self.entries.len()
    }

    /// Adds an entry.
    pub(crate) fn add_entry(&mut self, entry: Entry) -> Result<(), AllocError>
        requires { entry.worker ≤ LAST_WORKER }
        ensures { OnOk result (Entered self.old entry self.new) }
    {
        let place = entry.worker as usize;
        let verb = verb_after(self.verbs[place], &entry.act);
        self.entries.push(entry)?;
        self.verbs[place] = verb;
        Ok(())
    }

    /// Adds a stall line.
    pub(crate) fn add_stall(&mut self, stall: StallLine) -> Result<(), AllocError>
        ensures { OnOk result (Stalled self.old stall self.new) }
    {
        let worker = stall.worker;
        self.stalls.push(stall)?;
        self.last = Some(worker);
        Ok(())
    }

    /// The journal.
    pub(crate) fn finish(self) -> Journal
        ensures { result ≡ self }
    {
        Journal {
            providers: self.providers,
            entries: Items::from_vec(self.entries),
            stalls: Items::from_vec(self.stalls),
        }
    }
}
