//! The fields of lines: one word each, in a fixed order.

ghost use Rattle.std.specs.Prelude.{◌≡◌, ◌<◌, ◌∷◌, [], drop, length, ◌==◌, IfSome, IfNone};
ghost use Rattle.std.specs.Option.{option_copied};
ghost use Rattle.xti_journal.specs.FieldValue.{Value as value};
ghost use Rattle.xti_journal.specs.Kinds.{Kind as kind};
ghost use Rattle.xti_journal.specs.Fields.{key_word, kind_of};
ghost use Rattle.xti_journal.specs.Reading.{behind_key, accepted, fields_of};
ghost use Rattle.xti_journal.specs.Unread.{unread, EndsAs, EndsLine, TakesField, NextIs, Reads};
ghost use Rattle.xti_words.specs.Texts.{words_of};

use crate::names::{
    errno_in, event_in, event_or_none_in, limit_in, service_in, state_in, truth_in,
};
use crate::values::{octets_in, parts_in, sizes_in};
use std::alloc::Global;
use xti_base::{Errno, Event, Fd, Limit, Octets, Parts, Prov, Seq, ServType, Sizes, State};
use xti_words::{FieldFail, Noted, Words, mode_in, number_in, provider_in};

/// The keys of fields. The first ten are written without a key.
#[derive(Clone, Copy, Debug, PartialEq, Eq)]
pub(crate) enum Key {
    /// A number.
    Number,
    /// Bytes.
    Bytes,
    /// A provider.
    Provider,
    /// `block` or `nonblock`.
    Mode,
    /// A limit as a signed number.
    Limit,
    /// The number of a service type.
    Service,
    /// A state.
    State,
    /// An event.
    Event,
    /// An event, or 0.
    EventOrNone,
    /// An error that stands alone.
    Errno,
    /// An address.
    Addr,
    /// Options.
    Opt,
    /// The data that go with a request, a confirmation or a disconnect.
    UData,
    /// The data of a send.
    Data,
    /// The data of a send in parts.
    Parts,
    /// The sizes of the buffers of a receive.
    Sizes,
    /// The length of the queue of indications.
    Qlen,
    /// The flags of a send.
    Flags,
    /// The most bytes that a receive takes.
    Max,
    /// The most bytes of an address that the caller takes.
    Amax,
    /// The most bytes of the peer's address that the caller takes.
    Pmax,
    /// The most bytes of options that the caller takes.
    Omax,
    /// The most bytes of the peer's data that the caller takes.
    Umax,
    /// The most bytes of a message.
    Tsdu,
    /// Whether messages may be empty.
    SendZero,
    /// Whether an accepting endpoint must have the listener's address.
    SameAddr,
    /// The send size of a new endpoint.
    SndBuf,
    /// The receive size of a new endpoint.
    RcvBuf,
    /// Whether data may go with an orderly release.
    RelData,
}

/// What is after these bytes; `None` where the word doesn't begin with them.
#[inline(always)]
fn behind_key<'a>(key: &[u8], word: &'a [u8]) -> Option<&'a [u8]>
    ensures { option_copied result ≡ behind_key key.now word.now }
{
    if !word.starts_with(key) {
        return None;
    }
    Some(&word[key.len()..])
}

/// What is after the key and its sign; `None` where the word doesn't begin with them.
#[tactic(auto, unfolding(crate::specs::Fields::field))]
fn field_text(key: Key, word: &[u8]) -> Option<&[u8]>
    ensures { option_copied result ≡ behind_key (key_word key) word.now }
{
    match key {
        Key::Number
        | Key::Bytes
        | Key::Provider
        | Key::Mode
        | Key::Limit
        | Key::Service
        | Key::State
        | Key::Event
        | Key::EventOrNone
        | Key::Errno => Some(word),
        Key::Addr => behind_key(b"addr=", word),
        Key::Opt => behind_key(b"opt=", word),
        Key::UData => behind_key(b"udata=", word),
        Key::Data => behind_key(b"data=", word),
        Key::Parts => behind_key(b"parts=", word),
        Key::Sizes => behind_key(b"sizes=", word),
        Key::Qlen => behind_key(b"qlen=", word),
        Key::Flags => behind_key(b"flags=", word),
        Key::Max => behind_key(b"max=", word),
        Key::Amax => behind_key(b"amax=", word),
        Key::Pmax => behind_key(b"pmax=", word),
        Key::Omax => behind_key(b"omax=", word),
        Key::Umax => behind_key(b"umax=", word),
        Key::Tsdu => behind_key(b"tsdu=", word),
        Key::SendZero => behind_key(b"sendzero=", word),
        Key::SameAddr => behind_key(b"same_addr=", word),
        Key::SndBuf => behind_key(b"sndbuf=", word),
        Key::RcvBuf => behind_key(b"rcvbuf=", word),
        Key::RelData => behind_key(b"reldata=", word),
    }
}

/// The words of a line that are not read yet, and the keys of the fields that stand there. Where a field can't be read, that is
/// noted and something else is given in its place: what is made of fields is made whole, and whether they were read is asked
/// once, at the end.
#[derive(Drop)]
pub(crate) struct Fields<'a> {
    alloc: Global,
    keys: &'static [Key],
    words: Words<'a>,
    /// What is noted of the fields before these.
    noted: Noted,
}

impl<'a> Fields<'a> {
    /// The words of the line.
    pub(crate) fn of(alloc: Global, line: &'a [u8]) -> Fields<'a>
        ensures { result.words ≡ words_of line.now }
    {
        Fields {
            alloc,
            keys: &[],
            words: Words::of(line),
            noted: Noted::nothing(),
        }
    }

    /// Sets the keys of the fields that are next.
    #[inline(always)]
    pub(crate) fn expect(&mut self, keys: &'static [Key])
        ensures keys { self.new.keys.now ≡ keys.now }
        ensures value { unread self.new ≡ fields_of keys.now self.old.words }
    {
        self.keys = keys;
        self.noted = Noted::nothing();
    }

    /// Whether each field was read.
    #[inline(always)]
    pub(crate) fn end(&self) -> Result<(), FieldFail>
        requires { self.now.keys.now ≡ [] }
        ensures { EndsAs self.now result }
    {
        self.noted.end()
    }

    /// Whether each field was read, and no word is left.
    pub(crate) fn end_line(&self) -> Result<(), FieldFail>
        requires { self.now.keys.now ≡ [] }
        ensures { EndsLine self.now result }
    {
        match self.noted.end() {
            Ok(()) if !self.are_read() => Err(FieldFail::Wrong),
            ended => ended,
        }
    }

    /// Takes the next word.
    #[inline(always)]
    pub(crate) fn word(&mut self) -> Option<&'a [u8]>
        ensures some { IfSome result (λ word. self.old.words ≡ word.now ∷ self.new.words) }
        ensures none { IfNone result (self.old.words ≡ []) }
    {
        self.words.next()
    }

    /// Takes the next word where it is this one.
    pub(crate) fn accept(&mut self, wanted: &[u8]) -> bool
        ensures { (result, self.new.words) ≡ accepted wanted.now self.old.words }
    {
        match self.words.first() {
            Some(word) if word == wanted => {
                self.words.next();
                true
            }
            _ => false,
        }
    }

    /// Whether no word is left.
    pub(crate) fn are_read(&self) -> bool
        ensures { result ≡ (length self.now.words == 0) }
    {
        self.words.is_empty()
    }

    /// Takes the next key and its word: what is after the key, or `None` where it isn't there.
    #[inline(always)]
    fn next(&mut self) -> (Key, Option<&'a [u8]>)
        requires { 0 < length self.old.keys.now }
        ensures { TakesField self.old self.new result.0 (option_copied result.1) }
    {
        let key = self.keys[0];
        self.keys = &self.keys[1..];
        match self.words.next() {
            Some(word) => (key, field_text(key, word)),
            None => (key, None),
        }
    }

    /// The number that the next field is.
    #[inline(always)]
    #[tactic(auto, unfolding(crate::specs::Fields::field))]
    pub(crate) fn number(&mut self) -> u32
        requires { NextIs kind.Number self.old.keys.now }
        ensures keys { self.new.keys.now ≡ drop 1 self.old.keys.now }
        ensures value { Reads (value.Number result ∷ []) self.old self.new }
    {
        match self.next() {
            (_, Some(text)) => self.noted.or_note(number_in(text), 0),
            (_, None) => self.noted.or_note(None, 0),
        }
    }

    /// The descriptor whose number the next field is.
    #[inline(always)]
    pub(crate) fn fd(&mut self) -> Fd
        requires { NextIs kind.Number self.old.keys.now }
        ensures keys { self.new.keys.now ≡ drop 1 self.old.keys.now }
        ensures value { Reads (value.Number result.0 ∷ []) self.old self.new }
    {
        Fd(self.number())
    }

    /// The sequence number that the next field is.
    #[inline(always)]
    pub(crate) fn seq(&mut self) -> Seq
        requires { NextIs kind.Number self.old.keys.now }
        ensures keys { self.new.keys.now ≡ drop 1 self.old.keys.now }
        ensures value { Reads (value.Number result.0 ∷ []) self.old self.new }
    {
        Seq(self.number())
    }

    /// The bytes of the next field.
    #[inline(always)]
    #[tactic(auto, unfolding(crate::specs::Fields::field))]
    pub(crate) fn bytes(&mut self) -> Octets
        requires { NextIs kind.Bytes self.old.keys.now }
        ensures keys { self.new.keys.now ≡ drop 1 self.old.keys.now }
        ensures value { Reads (value.Bytes result ∷ []) self.old self.new }
    {
        match self.next() {
            (_, Some(text)) => self
                .noted
                .or_keep(octets_in(self.alloc, text), Octets::new(self.alloc)),
            (_, None) => self.noted.or_keep(Ok(None), Octets::new(self.alloc)),
        }
    }

    /// The parts of the next field.
    #[tactic(auto, unfolding(crate::specs::Fields::field))]
    pub(crate) fn parts(&mut self) -> Parts
        requires { NextIs kind.Parts self.old.keys.now }
        ensures keys { self.new.keys.now ≡ drop 1 self.old.keys.now }
        ensures value { Reads (value.Parts result ∷ []) self.old self.new }
    {
        match self.next() {
            (_, Some(text)) => self
                .noted
                .or_keep(parts_in(self.alloc, text), Parts::new(self.alloc)),
            (_, None) => self.noted.or_keep(Ok(None), Parts::new(self.alloc)),
        }
    }

    /// The sizes of the next field.
    #[tactic(auto, unfolding(crate::specs::Fields::field))]
    pub(crate) fn sizes(&mut self) -> Sizes
        requires { NextIs kind.Sizes self.old.keys.now }
        ensures keys { self.new.keys.now ≡ drop 1 self.old.keys.now }
        ensures value { Reads (value.Sizes result ∷ []) self.old self.new }
    {
        match self.next() {
            (_, Some(text)) => self
                .noted
                .or_keep(sizes_in(self.alloc, text), Sizes::new(self.alloc)),
            (_, None) => self.noted.or_keep(Ok(None), Sizes::new(self.alloc)),
        }
    }

    /// The truth value of the next field.
    #[tactic(auto, unfolding(crate::specs::Fields::field))]
    pub(crate) fn truth(&mut self) -> bool
        requires { NextIs kind.Truth self.old.keys.now }
        ensures keys { self.new.keys.now ≡ drop 1 self.old.keys.now }
        ensures value { Reads (value.Truth result ∷ []) self.old self.new }
    {
        match self.next() {
            (_, Some(text)) => self.noted.or_note(truth_in(text), false),
            (_, None) => self.noted.or_note(None, false),
        }
    }

    /// The provider that the next field is.
    #[tactic(auto, unfolding(crate::specs::Fields::field))]
    pub(crate) fn provider(&mut self) -> Prov
        requires { NextIs kind.Provider self.old.keys.now }
        ensures keys { self.new.keys.now ≡ drop 1 self.old.keys.now }
        ensures value { Reads (value.Provider result ∷ []) self.old self.new }
    {
        match self.next() {
            (_, Some(text)) => self.noted.or_note(provider_in(text), Prov::Other),
            (_, None) => self.noted.or_note(None, Prov::Other),
        }
    }

    /// Whether the mode that the next field is, is `nonblock`.
    #[tactic(auto, unfolding(crate::specs::Fields::field))]
    pub(crate) fn mode(&mut self) -> bool
        requires { NextIs kind.Mode self.old.keys.now }
        ensures keys { self.new.keys.now ≡ drop 1 self.old.keys.now }
        ensures value { Reads (value.Mode result ∷ []) self.old self.new }
    {
        match self.next() {
            (_, Some(text)) => self.noted.or_note(mode_in(text), false),
            (_, None) => self.noted.or_note(None, false),
        }
    }

    /// The limit of the next field.
    #[tactic(auto, unfolding(crate::specs::Fields::field))]
    pub(crate) fn limit(&mut self) -> Limit
        requires { NextIs kind.Limit self.old.keys.now }
        ensures keys { self.new.keys.now ≡ drop 1 self.old.keys.now }
        ensures value { Reads (value.Limit result ∷ []) self.old self.new }
    {
        match self.next() {
            (_, Some(text)) => self.noted.or_note(limit_in(text), Limit::Invalid),
            (_, None) => self.noted.or_note(None, Limit::Invalid),
        }
    }

    /// The service type whose number the next field is.
    #[tactic(auto, unfolding(crate::specs::Fields::field))]
    pub(crate) fn service(&mut self) -> ServType
        requires { NextIs kind.Service self.old.keys.now }
        ensures keys { self.new.keys.now ≡ drop 1 self.old.keys.now }
        ensures value { Reads (value.Service result ∷ []) self.old self.new }
    {
        match self.next() {
            (_, Some(text)) => self.noted.or_note(service_in(text), ServType::T_COTS),
            (_, None) => self.noted.or_note(None, ServType::T_COTS),
        }
    }

    /// The state that the next field is.
    #[tactic(auto, unfolding(crate::specs::Fields::field))]
    pub(crate) fn state(&mut self) -> State
        requires { NextIs kind.State self.old.keys.now }
        ensures keys { self.new.keys.now ≡ drop 1 self.old.keys.now }
        ensures value { Reads (value.State result ∷ []) self.old self.new }
    {
        match self.next() {
            (_, Some(text)) => self.noted.or_note(state_in(text), State::T_UNINIT),
            (_, None) => self.noted.or_note(None, State::T_UNINIT),
        }
    }

    /// The event that the next field is.
    #[tactic(auto, unfolding(crate::specs::Fields::field))]
    pub(crate) fn event(&mut self) -> Event
        requires { NextIs kind.Event self.old.keys.now }
        ensures keys { self.new.keys.now ≡ drop 1 self.old.keys.now }
        ensures value { Reads (value.Event result ∷ []) self.old self.new }
    {
        match self.next() {
            (_, Some(text)) => self.noted.or_note(event_in(text), Event::T_DATA),
            (_, None) => self.noted.or_note(None, Event::T_DATA),
        }
    }

    /// The event that the next field is; `None` for 0.
    #[tactic(auto, unfolding(crate::specs::Fields::field))]
    pub(crate) fn event_or_none(&mut self) -> Option<Event>
        requires { NextIs kind.EventOrNone self.old.keys.now }
        ensures keys { self.new.keys.now ≡ drop 1 self.old.keys.now }
        ensures value { Reads (value.EventOrNone result ∷ []) self.old self.new }
    {
        match self.next() {
            (_, Some(text)) => self.noted.or_note(event_or_none_in(text), None),
            (_, None) => self.noted.or_note(None, None),
        }
    }

    /// The error that the next field is.
    #[tactic(auto, unfolding(crate::specs::Fields::field))]
    pub(crate) fn errno(&mut self) -> Errno
        requires { NextIs kind.Errno self.old.keys.now }
        ensures keys { self.new.keys.now ≡ drop 1 self.old.keys.now }
        ensures value { Reads (value.Errno result ∷ []) self.old self.new }
    {
        match self.next() {
            (_, Some(text)) => self.noted.or_note(errno_in(text), Errno::TBADF),
            (_, None) => self.noted.or_note(None, Errno::TBADF),
        }
    }
}
