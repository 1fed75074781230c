//! What can't be read is noted while a value is made of fields, and asked for once, when it is whole.

ghost use Rattle.std.specs.Prelude.{◌≡◌, Ok, false};
ghost use Rattle.xti_words.specs.Noted.{Ends, Notes};
ghost use Rattle.xti_words.specs.declared.noted.FieldFail.TheVariants.{OutOfMemory};

use std::alloc::AllocError;

/// Why fields are not read.
#[derive(Clone, Copy, Debug, PartialEq, Eq)]
pub enum FieldFail {
    /// One is wrong or missing, or a word is left.
    Wrong,
    /// Memory ran out.
    OutOfMemory,
}

impl From<AllocError> for FieldFail {
    ghost from_gives = { λ _ e. e ≡ OutOfMemory };

    fn from(_e: AllocError) -> FieldFail {
        FieldFail::OutOfMemory
    }
}

/// What is noted of the fields that were read. Where one can't be read, something else is given in its place, so that a value
/// of many fields has one way to be made, and none where some of its parts must be let go.
#[derive(Clone, Copy, Debug, PartialEq, Eq)]
pub struct Noted {
    /// Whether a field is wrong or missing.
    pub is_wrong: bool,
    /// Whether memory ran out.
    pub ran_out: bool,
}

impl Noted {
    /// Nothing.
    #[inline(always)]
    pub fn nothing() -> Noted
        ensures { result ≡ record { is_wrong = false; ran_out = false } }
    {
        Noted {
            is_wrong: false,
            ran_out: false,
        }
    }

    /// What was read; where nothing was, that is noted, and this is given.
    #[inline(always)]
    pub fn or_note<T: Copy>(&mut self, read: Option<T>, other: T) -> T
        ensures { Notes {E = AllocError} (Ok read) self.old self.new result }
    {
        match read {
            Some(value) => value,
            None => {
                self.is_wrong = true;
                other
            }
        }
    }

    /// The same of what owns memory, which may run out.
    #[inline(always)]
    pub fn or_keep<T: Drop>(&mut self, read: Result<Option<T>, AllocError>, other: T) -> T
        ensures { Notes read self.old self.new result }
    {
        match read {
            Ok(Some(value)) => {
                drop(other);
                value
            }
            Ok(None) => {
                self.is_wrong = true;
                other
            }
            Err(AllocError) => {
                self.ran_out = true;
                other
            }
        }
    }

    /// Whether nothing was noted.
    #[inline(always)]
    pub fn end(self) -> Result<(), FieldFail>
        ensures { Ends self result }
    {
        if self.ran_out {
            Err(FieldFail::OutOfMemory)
        } else if self.is_wrong {
            Err(FieldFail::Wrong)
        } else {
            Ok(())
        }
    }
}
