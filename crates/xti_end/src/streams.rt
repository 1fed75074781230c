//! The data of a connection that wait at an endpoint, and its release.

ghost use Rattle.std.specs.Prelude.{◌≡◌, ◌≤◌, ◌+◌, [], true, max, Some, None, IfSome, OnOk, OnErr};
ghost use Rattle.tpi_grammar.specs.declared.kind.Kind.TheVariants.{T_DATA_IND, T_EXDATA_IND, T_ORDREL_IND};
ghost use Rattle.tpi_prim.specs.Fields.{kind_in};
ghost use Rattle.xti_model.specs.Events.{some_wait};
ghost use Rattle.xti_queue.specs.Queue.{symbols};
ghost use Rattle.xti_end.specs.Frames.{release_in, seen_as, symbols_in};
ghost use Rattle.xti_end.specs.Held.{is_open, parts, with_parts, with_release, normal_at, expedited_at, AddsNormal, AddsExpedited};

use crate::endpoint::Endpoint;
use std::alloc::AllocError;
use tpi_prim::Frame;
use xti_base::write_over;
use xti_queue::ReadQueue;

impl Endpoint {
    /// The normal data that wait, as T_DATA_IND frames. Takes no memory.
    pub fn normal(&self) -> &ReadQueue
        ensures { symbols result.now ≡ normal_at self.now.body }
    {
        &self.waiting.normal
    }

    /// Whether normal data wait at the open endpoint.
    pub fn has_normal(&self) -> bool
        requires { is_open self.now ≡ true }
        ensures { result ≡ some_wait (parts self.now).normal }
    {
        self.waiting.normal.bytes_len() != 0 || self.waiting.normal.ends_len() != 0
    }

    /// Makes room for one more T_DATA_IND; where memory runs out all is as before.
    pub fn reserve_normal(&mut self) -> Result<(), AllocError>
        ensures same { self.new ≡ record self.old { spare_normal = self.new.spare_normal } }
        ensures kept { self.old.spare_normal ≤ self.new.spare_normal }
        ensures spare { OnOk result (1 ≤ self.new.spare_normal) }
        ensures most { self.new.spare_normal ≤ max self.old.spare_normal 1 }
        ensures err { OnErr result (self.new ≡ self.old) }
    {
        self.waiting.normal.reserve(1)
    }

    /// Adds normal data, a T_DATA_IND for which there must be spare room. Takes no memory.
    pub fn push_normal(&mut self, frame: Frame)
        requires open { is_open self.old ≡ true }
        requires room { 1 ≤ self.old.spare_normal }
        requires kind { kind_in frame ≡ T_DATA_IND }
        ensures added { AddsNormal (symbols_in frame) self.old self.new }
        ensures spare { self.old.spare_normal ≤ self.new.spare_normal + 1 }
    {
        self.waiting.normal.push(frame);
    }

    /// The expedited data that wait, as T_EXDATA_IND frames. Takes no memory.
    pub fn expedited(&self) -> &ReadQueue
        ensures { symbols result.now ≡ expedited_at self.now.body }
    {
        &self.waiting.expedited
    }

    /// Whether expedited data wait at the open endpoint.
    pub fn has_expedited(&self) -> bool
        requires { is_open self.now ≡ true }
        ensures { result ≡ some_wait (parts self.now).expedited }
    {
        self.waiting.expedited.bytes_len() != 0 || self.waiting.expedited.ends_len() != 0
    }

    /// Makes room for one more T_EXDATA_IND; where memory runs out all is as before.
    pub fn reserve_expedited(&mut self) -> Result<(), AllocError>
        ensures same { self.new ≡ record self.old { spare_expedited = self.new.spare_expedited } }
        ensures kept { self.old.spare_expedited ≤ self.new.spare_expedited }
        ensures spare { OnOk result (1 ≤ self.new.spare_expedited) }
        ensures most { self.new.spare_expedited ≤ max self.old.spare_expedited 1 }
        ensures err { OnErr result (self.new ≡ self.old) }
    {
        self.waiting.expedited.reserve(1)
    }

    /// Adds expedited data, a T_EXDATA_IND for which there must be spare room. Takes no memory.
    pub fn push_expedited(&mut self, frame: Frame)
        requires open { is_open self.old ≡ true }
        requires room { 1 ≤ self.old.spare_expedited }
        requires kind { kind_in frame ≡ T_EXDATA_IND }
        ensures added { AddsExpedited (symbols_in frame) self.old self.new }
        ensures spare { self.old.spare_expedited ≤ self.new.spare_expedited + 1 }
    {
        self.waiting.expedited.push(frame);
    }

    /// The release of the other side, a T_ORDREL_IND whose user data go with the release; `None` exactly where there is none. Takes
    /// no memory.
    pub fn release(&self) -> Option<&Frame>
        requires { is_open self.now ≡ true }
        ensures release { seen_as release_in result ≡ (parts self.now).release }
        ensures kind { IfSome result (λ frame. kind_in frame.now ≡ T_ORDREL_IND) }
    {
        self.open_parts().connection.release.as_ref()
    }

    /// Sets the release of the open endpoint: a T_ORDREL_IND, with its user data. Takes no memory.
    pub fn set_release(&mut self, frame: Frame)
        requires open { is_open self.old ≡ true }
        requires kind { kind_in frame ≡ T_ORDREL_IND }
        ensures { self.new ≡ with_parts (with_release (Some (release_in frame))) self.old }
    {
        if let Some(parts) = &mut self.body {
            write_over(&mut parts.connection.release, Some(frame));
        }
    }

    /// Takes the release out of the open endpoint, if there is one. Takes no memory.
    pub fn clear_release(&mut self)
        requires { is_open self.old ≡ true }
        ensures { self.new ≡ with_parts (with_release None) self.old }
    {
        if let Some(parts) = &mut self.body {
            write_over(&mut parts.connection.release, None);
        }
    }
}
