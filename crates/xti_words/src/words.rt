//! Taking the words of a line one after the other.

ghost use Rattle.std.specs.Prelude.{◌≡◌, ◌∷◌, ◌==◌, ◌+◌, ◌≤◌, [], position, length, slice_get, IfSome, IfNone};
ghost use Rattle.std.specs.List.{position_or_len};
ghost use Rattle.std.specs.Option.{option_copied};
ghost use Rattle.std.specs.Simd.Lanes.{chunk};
ghost use Rattle.xti_words.specs.Texts.{words_of};
ghost use Rattle.xti_words.specs.Words.{words_behind};

use std::marker::Model;
use std::simd::prelude::*;

/// So many bytes are looked at at once.
const LANES: usize = 8;

// How many bytes are before the first space, of those that are looked at from here on.
#[inline(always)]
fn lanes_before(text: &[u8], at: usize) -> usize
    requires { at + LANES ≤ length text.now }
    ensures { result ≡ position_or_len (λ c. c == 32) (chunk at LANES text.now) }
{
    let lanes = u8x8::from_slice(&text[at..]);
    let spaces = lanes.simd_eq(u8x8::splat(b' ')).to_bitmask();
    if spaces == 0 {
        LANES
    } else {
        spaces.trailing_zeros() as usize
    }
}

fn word_end(text: &[u8]) -> Option<usize>
    ensures { result ≡ position (λ c. c == 32) text.now }
{
    if text.len() < LANES {
        return text.iter().position(|c| *c == b' ');
    }
    let mut at = 0;
    while at < text.len() {
        // At the end some that were looked at are looked at again.
        let from = at.min(text.len() - LANES);
        let before = lanes_before(text, from);
        if before < LANES {
            return Some(from + before);
        }
        at = from + LANES;
    }
    None
}

/// The first word of a line, and what is after its space; `None` where it is the last word.
fn first_word(line: &[u8]) -> (&[u8], Option<&[u8]>)
    ensures { words_of line.now ≡ result.0.now ∷ words_behind (option_copied result.1) }
{
    match word_end(line) {
        Some(end) => (&line[..end], Some(&line[end + 1..])),
        None => (line, None),
    }
}

/// The words of a line that are not taken yet.
#[derive(Drop)]
pub struct Words<'a> {
    first: Option<&'a [u8]>,
    /// What is after the first word and its space.
    behind: Option<&'a [u8]>,
}

impl<'a> Model for Words<'a> {
    ghost use Rattle.std.specs.Prelude.{ℕ, List};
    ghost use Rattle.std.specs.Option.{option_copied};
    ghost use Rattle.xti_words.specs.Words.{words_left};

    ghost Value = { List (List ℕ) };

    ghost view = { λ w. words_left (option_copied w.first) (option_copied w.behind) };
}

impl<'a> Words<'a> {
    /// The words of the line.
    pub fn of(line: &'a [u8]) -> Words<'a>
        ensures { result ≡ words_of line.now }
    {
        let (word, behind) = first_word(line);
        Words {
            first: Some(word),
            behind,
        }
    }

    /// The next word, which stays.
    pub fn first(&self) -> Option<&'a [u8]>
        ensures { option_copied result ≡ slice_get self.now 0 }
    {
        self.first
    }

    /// Whether no word is left.
    pub fn is_empty(&self) -> bool
        ensures { result ≡ (length self.now == 0) }
    {
        self.first.is_none()
    }

    /// Takes the next word.
    pub fn next(&mut self) -> Option<&'a [u8]>
        ensures some { IfSome result (λ word. self.old ≡ word.now ∷ self.new) }
        ensures none { IfNone result ((self.old ≡ []) × (self.new ≡ [])) }
    {
        let word = self.first?;
        match self.behind {
            Some(text) => *self = Words::of(text),
            None => self.first = None,
        }
        Some(word)
    }
}
