//! What calls answer.

/// What calls answer.
#[derive(Clone, Copy, Debug, PartialEq, Eq)]
pub enum Answer {
    /// Done, with nothing to tell.
    Plain,
    Opened,
    Bound,
    Connected,
    Listened,
    Sent,
    Got,
    Discon,
    RelData,
    UData,
    UDErr,
    Seen,
    Stands,
    Limits,
    Addresses,
    Options,
    /// An error that stands alone.
    Refused,
    /// TLOOK.
    Look,
    /// TBUFOVFLW.
    Overflow,
    /// A part of the call is made.
    Part,
}
