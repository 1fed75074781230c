//! The fields of calls: words in a fixed order, of which those with a usual value may be left out.

ghost use Rattle.std.specs.Prelude.{◌≡◌, [], true, IfOk, option_map, drop};
ghost use Rattle.std.specs.Option.{option_copied};
ghost use Rattle.xti_script_reader.specs.FieldValue.{Value as value};
ghost use Rattle.xti_script_reader.specs.Fields.{key_word, kind_of, usual_value};
ghost use Rattle.xti_script_reader.specs.Names.{Spot, after, can_name};
ghost use Rattle.xti_script_reader.specs.Reading.{behind_key, field_rest, fields_of, written_value, IsFieldText};
ghost use Rattle.xti_script_reader.specs.Values.{value_in};
ghost use Rattle.xti_script_reader.specs.Unread.{usual_is, spot_of, unread, are_bytes, are_number, is_naming, EndsAs, IsNext, Reads, TakesField};
ghost use Rattle.xti_script_reader.specs.Kinds.{Kind as kind};

use crate::draft::Draft;
use std::alloc::{AllocError, Global};
use xti_base::limits::{MOST_ADDRESS, MOST_CONNECT_DATA, MOST_OPTIONS, MOST_SEND};
use xti_base::{Octets, Parts, Prov, Sizes};
use xti_model::Name;
use xti_words::{
    FieldFail, Noted, Words, action_in, bytes_in, is_name, mode_in, number_in, options_in,
    parts_in, provider_in, sizes_in,
};

/// The keys of fields. The first nine are written without a key, as one word.
#[derive(Clone, Copy, Debug, PartialEq, Eq)]
pub enum Key {
    /// The name that an open defines.
    NewEndpoint,
    /// The name of an endpoint.
    Endpoint,
    /// The name that a listen defines.
    NewSequence,
    /// The name of a sequence number.
    Sequence,
    /// The name of a sequence number, or `-` for none.
    SequenceOrNone,
    /// A provider.
    Provider,
    /// `block` or `nonblock`.
    Mode,
    /// The same, or nothing for `block`.
    ModeOrBlock,
    /// The action of t_optmgmt.
    Action,
    /// An address.
    Addr,
    /// Options.
    Opt,
    /// The data that go with a request, a confirmation, a disconnect or a release.
    UData,
    /// The data of a send.
    Data,
    /// The data of a send in parts.
    Parts,
    /// The sizes of the buffers of a receive.
    Sizes,
    /// The length of the queue of indications.
    Qlen,
    /// The flags of a send.
    Flags,
    /// The most bytes that a receive takes.
    Max,
    /// The most bytes of an address that the caller takes.
    Amax,
    /// The most bytes of the peer's address that the caller takes.
    Pmax,
    /// The most bytes of options that the caller takes.
    Omax,
    /// The most bytes of the peer's data that the caller takes.
    Umax,
}

impl Key {
    ghost use Rattle.std.specs.Prelude.{◌≡◌, is_some};
    ghost use Rattle.xti_script_reader.specs.Fields.{key_word, usual_value};

    /// The key as it is written, with its sign; empty for a word without a key.
    #[inline(always)]
    #[tactic(auto, unfolding(crate::specs::Fields::field))]
    pub fn word(self) -> &'static [u8]
        ensures { result.now ≡ key_word self }
    {
        match self {
            Key::NewEndpoint
            | Key::Endpoint
            | Key::NewSequence
            | Key::Sequence
            | Key::SequenceOrNone
            | Key::Provider
            | Key::Mode
            | Key::ModeOrBlock
            | Key::Action => b"",
            Key::Addr => b"addr=",
            Key::Opt => b"opt=",
            Key::UData => b"udata=",
            Key::Data => b"data=",
            Key::Parts => b"parts=",
            Key::Sizes => b"sizes=",
            Key::Qlen => b"qlen=",
            Key::Flags => b"flags=",
            Key::Max => b"max=",
            Key::Amax => b"amax=",
            Key::Pmax => b"pmax=",
            Key::Omax => b"omax=",
            Key::Umax => b"umax=",
        }
    }

    /// Whether the field may be left out, and has its usual value then.
    pub fn may_be_left_out(self) -> bool
        ensures { result ≡ is_some (usual_value self) }
    {
        usual_value(self).is_some()
    }
}

/// The value of a field that is left out.
#[derive(Clone, Copy, Debug, PartialEq, Eq)]
enum Usual {
    /// No bytes.
    Empty,
    Number(u32),
    /// The mode `block`.
    Blocking,
}

/// The value of a field that is left out; `None` where it must stand.
#[inline(always)]
#[tactic(auto, unfolding(crate::specs::Fields::field))]
fn usual_value(key: Key) -> Option<Usual>
    ensures { option_map usual_is result ≡ usual_value key }
{
    match key {
        Key::Addr | Key::Opt | Key::UData => Some(Usual::Empty),
        Key::Qlen | Key::Flags => Some(Usual::Number(0)),
        Key::Max => Some(Usual::Number(MOST_SEND as u32)),
        Key::Amax | Key::Pmax => Some(Usual::Number(MOST_ADDRESS as u32)),
        Key::Omax => Some(Usual::Number(MOST_OPTIONS as u32)),
        Key::Umax => Some(Usual::Number(MOST_CONNECT_DATA as u32)),
        Key::ModeOrBlock => Some(Usual::Blocking),
        _ => None,
    }
}

/// What is after the key; `None` where the word doesn't begin with it.
#[inline(always)]
fn behind_key<'a>(key: &[u8], word: &'a [u8]) -> Option<&'a [u8]>
    ensures { option_copied result ≡ behind_key key.now word.now }
{
    let mut rest = word;
    for k in key {
        let (c, others) = rest.split_first()?;
        if c != k {
            return None;
        }
        rest = others;
    }
    Some(rest)
}

/// What is after the key of the next word, where this is a field with the key; the word is taken then.
#[inline(always)]
fn field_text<'a>(key: Key, words: &mut Words<'a>) -> Option<&'a [u8]>
    ensures text { IsFieldText key words.old (option_copied result) }
    ensures rest { words.new ≡ field_rest key words.old }
{
    let text = behind_key(key.word(), words.first()?)?;
    words.next();
    Some(text)
}

/// The bytes or options of a field with this word behind its key, or with none.
#[inline(always)]
#[tactic(auto, unfolding(crate::specs::Fields::field))]
fn octets_of(alloc: Global, key: Key, text: Option<&[u8]>) -> Result<Option<Octets>, AllocError>
    requires { are_bytes (kind_of key) ≡ true }
    ensures { IfOk result (λ read. (s : Spot) →
        option_map value.Bytes read ≡ written_value s key (option_copied text.entry)) }
{
    match text {
        Some(text) if matches!(key, Key::Opt) => options_in(alloc, text),
        Some(text) => bytes_in(alloc, text),
        None => match usual_value(key) {
            Some(Usual::Empty) => Ok(Some(Octets::new(alloc))),
            _ => Ok(None),
        },
    }
}

/// The number of a field with this word behind its key, or with none.
#[inline(always)]
#[tactic(auto, unfolding(crate::specs::Fields::field))]
fn number_of(key: Key, text: Option<&[u8]>) -> Option<u32>
    requires { are_number (kind_of key) ≡ true }
    ensures { (s : Spot) →
        option_map value.Number result ≡ written_value s key (option_copied text.entry) }
{
    match text {
        Some(text) if matches!(key, Key::Action) => action_in(text),
        Some(text) => number_in(text),
        None => match usual_value(key) {
            Some(Usual::Number(number)) => Some(number),
            _ => None,
        },
    }
}

/// Whether the mode of a field with this word, or with none, is `nonblock`.
#[tactic(auto, unfolding(crate::specs::Fields::field))]
fn mode_of(key: Key, text: Option<&[u8]>) -> Option<bool>
    requires { kind_of key ≡ kind.Mode }
    ensures { (s : Spot) →
        option_map value.Mode result ≡ written_value s key (option_copied text.entry) }
{
    match text {
        Some(text) => mode_in(text),
        None => match usual_value(key) {
            Some(Usual::Blocking) => Some(false),
            _ => None,
        },
    }
}

/// A name that stands for one that wasn't read. Takes no memory.
fn no_name(alloc: Global) -> Name {
    Name::copy_of(alloc, b"").unwrap()
}

/// The fields of a call that are not read yet. Where one can't be read, that is noted and something else is given in its place:
/// each call is made whole, and whether its fields were read is asked once, at the end.
#[derive(Drop)]
pub(crate) struct Fields<'a> {
    /// The lines before that of the call.
    draft: &'a Draft,
    /// The worker that makes the call.
    worker: u32,
    /// Their keys.
    keys: &'static [Key],
    /// The words in which they stand.
    words: Words<'a>,
    /// What is noted of the fields before these.
    noted: Noted,
}

impl<'a> Fields<'a> {
    /// The fields with these keys.
    pub(crate) fn new(
        draft: &'a Draft,
        worker: u32,
        keys: &'static [Key],
        words: Words<'a>,
    ) -> Fields<'a>
        ensures keys { result.keys.now ≡ keys.now }
        ensures value { unread result ≡ fields_of (after draft.now worker) keys.now words.entry }
    {
        Fields {
            draft,
            worker,
            keys,
            words,
            noted: Noted::nothing(),
        }
    }

    /// Whether each field was read, and no word is left.
    pub(crate) fn end(&self) -> Result<(), FieldFail>
        requires { self.now.keys.now ≡ [] }
        ensures { EndsAs self.now result }
    {
        match self.noted.end() {
            Ok(()) if !self.words.is_empty() => Err(FieldFail::Wrong),
            ended => ended,
        }
    }

    /// Takes the next key, which is this one, and the word with it where the field is written: what is after the key, or
    /// `None`.
    #[inline(always)]
    fn next(&mut self, key: Key) -> Option<&'a [u8]>
        requires { IsNext key self.old.keys.now }
        ensures { TakesField self.old self.new key (option_copied result) }
    {
        self.keys = &self.keys[1..];
        field_text(key, &mut self.words)
    }

    /// Takes the next key, which is this one and written without a key, and the next word; `None` where no word is left.
    #[inline(always)]
    fn next_word(&mut self, key: Key) -> Option<&'a [u8]>
        requires next { IsNext key self.old.keys.now }
        requires bare { key_word key ≡ [] }
        ensures { TakesField self.old self.new key (option_copied result) }
    {
        self.keys = &self.keys[1..];
        self.words.next()
    }

    /// The bytes of the next field, or its options in bytes.
    #[inline(always)]
    pub(crate) fn bytes(&mut self, key: Key) -> Octets
        requires next { IsNext key self.old.keys.now }
        requires kind { are_bytes (kind_of key) ≡ true }
        ensures keys { self.new.keys.now ≡ drop 1 self.old.keys.now }
        ensures value { Reads (value.Bytes result) self.old self.new }
    {
        let alloc = self.draft.alloc();
        let text = self.next(key);
        self.noted
            .or_keep(octets_of(alloc, key, text), Octets::new(alloc))
    }

    /// The number of the next field.
    #[inline(always)]
    pub(crate) fn number(&mut self, key: Key) -> u32
        requires next { IsNext key self.old.keys.now }
        requires kind { are_number (kind_of key) ≡ true }
        ensures keys { self.new.keys.now ≡ drop 1 self.old.keys.now }
        ensures value { Reads (value.Number result) self.old self.new }
    {
        let text = self.next(key);
        self.noted.or_note(number_of(key, text), 0)
    }

    /// The parts of the next field, which has no usual value.
    #[tactic(auto, unfolding(crate::specs::Fields::field))]
    pub(crate) fn parts(&mut self, key: Key) -> Parts
        requires next { IsNext key self.old.keys.now }
        requires kind { kind_of key ≡ kind.Parts }
        ensures keys { self.new.keys.now ≡ drop 1 self.old.keys.now }
        ensures value { Reads (value.Parts result) self.old self.new }
    {
        let alloc = self.draft.alloc();
        match self.next(key) {
            Some(text) => self.noted.or_keep(parts_in(alloc, text), Parts::new(alloc)),
            None => self.noted.or_keep(Ok(None), Parts::new(alloc)),
        }
    }

    /// The sizes of the next field, which has no usual value.
    #[tactic(auto, unfolding(crate::specs::Fields::field))]
    pub(crate) fn sizes(&mut self, key: Key) -> Sizes
        requires next { IsNext key self.old.keys.now }
        requires kind { kind_of key ≡ kind.Sizes }
        ensures keys { self.new.keys.now ≡ drop 1 self.old.keys.now }
        ensures value { Reads (value.Sizes result) self.old self.new }
    {
        let alloc = self.draft.alloc();
        match self.next(key) {
            Some(text) => self.noted.or_keep(sizes_in(alloc, text), Sizes::new(alloc)),
            None => self.noted.or_keep(Ok(None), Sizes::new(alloc)),
        }
    }

    /// Whether the text can stand as the name that the field is: one that is defined, or a new one.
    #[tactic(auto, unfolding(crate::specs::Fields::field))]
    fn can_name(&self, key: Key, text: &[u8]) -> bool
        ensures { result ≡ can_name (spot_of self.now) (kind_of key) text.now }
    {
        match key {
            Key::NewEndpoint => is_name(text) && !self.draft.has_endpoint(self.worker, text),
            Key::Endpoint => self.draft.has_endpoint(self.worker, text),
            Key::NewSequence => is_name(text) && !self.draft.has_sequence(self.worker, text),
            Key::Sequence => self.draft.has_sequence(self.worker, text),
            _ => false,
        }
    }

    /// The name that the text is as this field.
    #[tactic(auto, unfolding(crate::specs::Fields::field))]
    fn name_in(&self, key: Key, text: &[u8]) -> Result<Option<Name>, AllocError>
        requires { is_naming (kind_of key) ≡ true }
        ensures { IfOk result (λ name.
            option_map value.Name name ≡ value_in (spot_of self.now) (kind_of key) text.now) }
    {
        if self.can_name(key, text) {
            Ok(Some(Name::copy_of(self.draft.alloc(), text)?))
        } else {
            Ok(None)
        }
    }

    /// The name that the next field is.
    #[tactic(auto, unfolding(crate::specs::Fields::field))]
    pub(crate) fn name(&mut self, key: Key) -> Name
        requires next { IsNext key self.old.keys.now }
        requires bare { key_word key ≡ [] }
        requires kind { is_naming (kind_of key) ≡ true }
        ensures keys { self.new.keys.now ≡ drop 1 self.old.keys.now }
        ensures value { Reads (value.Name result) self.old self.new }
    {
        let other = no_name(self.draft.alloc());
        match self.next_word(key) {
            Some(text) => {
                let read = self.name_in(key, text);
                self.noted.or_keep(read, other)
            }
            None => self.noted.or_keep(Ok(None), other),
        }
    }

    /// The name of a sequence number that the text is; `None` for `-`.
    fn sequence_in(&self, text: &[u8]) -> Result<Option<Option<Name>>, AllocError>
        ensures { IfOk result (λ name.
            option_map value.NameOrNone name ≡ value_in (spot_of self.now) kind.SequenceOrNone text.now) }
    {
        if text == b"-".as_slice() {
            Ok(Some(None))
        } else if self.draft.has_sequence(self.worker, text) {
            Ok(Some(Some(Name::copy_of(self.draft.alloc(), text)?)))
        } else {
            Ok(None)
        }
    }

    /// The name of a sequence number that the next field is; `None` for `-`.
    #[tactic(auto, unfolding(crate::specs::Fields::field))]
    pub(crate) fn sequence_or_none(&mut self, key: Key) -> Option<Name>
        requires next { IsNext key self.old.keys.now }
        requires bare { key_word key ≡ [] }
        requires kind { kind_of key ≡ kind.SequenceOrNone }
        ensures keys { self.new.keys.now ≡ drop 1 self.old.keys.now }
        ensures value { Reads (value.NameOrNone result) self.old self.new }
    {
        match self.next_word(key) {
            Some(text) => {
                let read = self.sequence_in(text);
                self.noted.or_keep(read, None)
            }
            None => self.noted.or_keep(Ok(None), None),
        }
    }

    /// The provider that the next field is.
    #[tactic(auto, unfolding(crate::specs::Fields::field))]
    pub(crate) fn provider(&mut self, key: Key) -> Prov
        requires next { IsNext key self.old.keys.now }
        requires bare { key_word key ≡ [] }
        requires kind { kind_of key ≡ kind.Provider }
        ensures keys { self.new.keys.now ≡ drop 1 self.old.keys.now }
        ensures value { Reads (value.Provider result) self.old self.new }
    {
        match self.next_word(key) {
            Some(text) => self.noted.or_note(provider_in(text), Prov::Other),
            None => self.noted.or_note(None, Prov::Other),
        }
    }

    /// Whether the mode that the next field is, is `nonblock`.
    pub(crate) fn mode(&mut self, key: Key) -> bool
        requires next { IsNext key self.old.keys.now }
        requires bare { key_word key ≡ [] }
        requires kind { kind_of key ≡ kind.Mode }
        ensures keys { self.new.keys.now ≡ drop 1 self.old.keys.now }
        ensures value { Reads (value.Mode result) self.old self.new }
    {
        let text = self.next_word(key);
        self.noted.or_note(mode_of(key, text), false)
    }
}
