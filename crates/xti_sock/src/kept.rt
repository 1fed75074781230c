//! The numbers of requests that a listener keeps.

ghost use Rattle.std.specs.Prelude.{◌≡◌, ◌≤◌, ◌+◌, ◌++◌, ◌∷◌, [], IfOk, drop};
ghost use Rattle.xti_sock.specs.Keeping.{oldest, without};

use std::alloc::{AllocError, Global};
use std::marker::Model;
use xti_base::{Items, Seq};

/// Numbers of requests, oldest first, and spare room for more.
#[derive(Drop)]
pub struct Kept {
    seqs: Vec<Seq>,
}

impl Model for Kept {
    ghost use Rattle.std.specs.Prelude.{◌-◌, vec_len, vec_capacity};
    ghost use Rattle.xti_sock.specs.Keeping.{Keeping};

    ghost Value = { Keeping };

    ghost view = { λ k. record {
      numbers = k.seqs.items;
      spare = vec_capacity k.seqs - vec_len k.seqs;
    } };
}

impl Kept {
    /// These numbers, and spare room for `n` more.
    pub fn with_room(alloc: Global, numbers: &[Seq], n: usize) -> Result<Kept, AllocError>
        ensures numbers { IfOk result (λ k. k.numbers ≡ numbers.now) }
        ensures spare { IfOk result (λ k. n ≤ k.spare) }
    {
        let mut seqs = Vec::from_slice(alloc, numbers)?;
        seqs.reserve(n)?;
        Ok(Kept { seqs })
    }

    /// The oldest. Takes no memory.
    pub fn oldest(&self) -> Option<Seq>
        ensures { result ≡ oldest self.now.numbers }
    {
        self.seqs.first().copied()
    }

    /// Adds the newest, for which there must be spare room. Takes no memory.
    pub fn push(&mut self, seq: Seq)
        requires { 1 ≤ self.old.spare }
        ensures numbers { self.new.numbers ≡ self.old.numbers ++ seq ∷ [] }
        ensures spare { self.old.spare ≤ self.new.spare + 1 }
    {
        self.seqs.push_reserved(seq);
    }

    /// Lets the oldest go. Takes no memory.
    pub fn drop_oldest(&mut self)
        ensures numbers { self.new.numbers ≡ drop 1 self.old.numbers }
        ensures spare { self.old.spare ≤ self.new.spare }
    {
        if !self.seqs.is_empty() {
            let _oldest = self.seqs.remove(0);
        }
    }

    /// Lets this number go. Takes no memory.
    pub fn forget(&mut self, seq: Seq)
        ensures numbers { self.new.numbers ≡ without seq self.old.numbers }
        ensures spare { self.old.spare ≤ self.new.spare }
    {
        self.seqs.retain(|kept| kept.0 != seq.0);
    }

    /// The numbers. Takes no memory.
    pub fn finish(self) -> Items<Seq>
        ensures { result ≡ self.numbers }
    {
        let Kept { seqs } = self;
        Items::from_vec(seqs)
    }
}
