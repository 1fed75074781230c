//! The errors of XTI (t_errno in XNS), by number and by name.

ghost use Rattle.std.specs.Prelude.{◌≡◌, ◌<◌, ◌≤◌, ◌↔◌, IsNone, IfSome, IfNone};
ghost use Rattle.xti_base.specs.Errno.{errno_number, errno_name, IsErrnoNumber};

/// The values of t_errno (XNS, `<xti.h>`).
#[derive(Clone, Copy, Debug, PartialEq, Eq)]
#[allow(non_camel_case_types)]
pub enum Errno {
    /// The address is not in the provider's form.
    TBADADDR,
    /// The options are not in their form.
    TBADOPT,
    /// No permission; never answered by this library.
    TACCES,
    /// The descriptor is not that of an open endpoint.
    TBADF,
    /// No address could be found; never answered by this library.
    TNOADDR,
    /// The call is not allowed in this state.
    TOUTSTATE,
    /// The sequence number names no outstanding indication.
    TBADSEQ,
    /// No endpoint can be opened.
    TSYSERR,
    /// An event is pending that must be looked at first.
    TLOOK,
    /// The data are not allowed.
    TBADDATA,
    /// A returned field is longer than the caller takes.
    TBUFOVFLW,
    /// The send would have to wait.
    TFLOW,
    /// Nothing is there to be received.
    TNODATA,
    /// No disconnect is there.
    TNODIS,
    /// No datagram error is there.
    TNOUDERR,
    /// A flag or an action is not known.
    TBADFLAG,
    /// No orderly release is there.
    TNOREL,
    /// The provider does not have this call.
    TNOTSUPPORT,
    /// The state changes under way; never answered by this library.
    TSTATECHNG,
    /// The structure is not one of the provider's.
    TNOSTRUCTYPE,
    /// The name names no provider.
    TBADNAME,
    /// The endpoint has no queue of indications.
    TBADQLEN,
    /// The address is in use.
    TADDRBUSY,
    /// Further indications are outstanding.
    TINDOUT,
    /// The two endpoints are of different providers.
    TPROVMISMATCH,
    /// The accepting endpoint has a queue of indications.
    TRESQLEN,
    /// The accepting endpoint has another address.
    TRESADDR,
    /// The queue of indications is full.
    TQFULL,
    /// The provider broke down; never answered by this library.
    TPROTO,
}

impl Errno {
    /// The number of the error in `<xti.h>`, from 1 to 29.
    pub fn number(self) -> u32
        ensures { result ≡ errno_number self }
    {
        match self {
            Errno::TBADADDR => 1,
            Errno::TBADOPT => 2,
            Errno::TACCES => 3,
            Errno::TBADF => 4,
            Errno::TNOADDR => 5,
            Errno::TOUTSTATE => 6,
            Errno::TBADSEQ => 7,
            Errno::TSYSERR => 8,
            Errno::TLOOK => 9,
            Errno::TBADDATA => 10,
            Errno::TBUFOVFLW => 11,
            Errno::TFLOW => 12,
            Errno::TNODATA => 13,
            Errno::TNODIS => 14,
            Errno::TNOUDERR => 15,
            Errno::TBADFLAG => 16,
            Errno::TNOREL => 17,
            Errno::TNOTSUPPORT => 18,
            Errno::TSTATECHNG => 19,
            Errno::TNOSTRUCTYPE => 20,
            Errno::TBADNAME => 21,
            Errno::TBADQLEN => 22,
            Errno::TADDRBUSY => 23,
            Errno::TINDOUT => 24,
            Errno::TPROVMISMATCH => 25,
            Errno::TRESQLEN => 26,
            Errno::TRESADDR => 27,
            Errno::TQFULL => 28,
            Errno::TPROTO => 29,
        }
    }

    /// The name of the error, as XNS spells it.
    pub fn name(self) -> &'static str
        ensures { result.now ≡ errno_name self }
    {
        match self {
            Errno::TBADADDR => "TBADADDR",
            Errno::TBADOPT => "TBADOPT",
            Errno::TACCES => "TACCES",
            Errno::TBADF => "TBADF",
            Errno::TNOADDR => "TNOADDR",
            Errno::TOUTSTATE => "TOUTSTATE",
            Errno::TBADSEQ => "TBADSEQ",
            Errno::TSYSERR => "TSYSERR",
            Errno::TLOOK => "TLOOK",
            Errno::TBADDATA => "TBADDATA",
            Errno::TBUFOVFLW => "TBUFOVFLW",
            Errno::TFLOW => "TFLOW",
            Errno::TNODATA => "TNODATA",
            Errno::TNODIS => "TNODIS",
            Errno::TNOUDERR => "TNOUDERR",
            Errno::TBADFLAG => "TBADFLAG",
            Errno::TNOREL => "TNOREL",
            Errno::TNOTSUPPORT => "TNOTSUPPORT",
            Errno::TSTATECHNG => "TSTATECHNG",
            Errno::TNOSTRUCTYPE => "TNOSTRUCTYPE",
            Errno::TBADNAME => "TBADNAME",
            Errno::TBADQLEN => "TBADQLEN",
            Errno::TADDRBUSY => "TADDRBUSY",
            Errno::TINDOUT => "TINDOUT",
            Errno::TPROVMISMATCH => "TPROVMISMATCH",
            Errno::TRESQLEN => "TRESQLEN",
            Errno::TRESADDR => "TRESADDR",
            Errno::TQFULL => "TQFULL",
            Errno::TPROTO => "TPROTO",
        }
    }

    /// The error with this number; `None` exactly outside 1 to 29.
    pub fn of_number(n: u32) -> Option<Errno>
        ensures some { IfSome result (λ e. errno_number e ≡ n) }
        ensures none { IsNone result ↔ (IsErrnoNumber n → ⊥) }
    {
        match n {
            1 => Some(Errno::TBADADDR),
            2 => Some(Errno::TBADOPT),
            3 => Some(Errno::TACCES),
            4 => Some(Errno::TBADF),
            5 => Some(Errno::TNOADDR),
            6 => Some(Errno::TOUTSTATE),
            7 => Some(Errno::TBADSEQ),
            8 => Some(Errno::TSYSERR),
            9 => Some(Errno::TLOOK),
            10 => Some(Errno::TBADDATA),
            11 => Some(Errno::TBUFOVFLW),
            12 => Some(Errno::TFLOW),
            13 => Some(Errno::TNODATA),
            14 => Some(Errno::TNODIS),
            15 => Some(Errno::TNOUDERR),
            16 => Some(Errno::TBADFLAG),
            17 => Some(Errno::TNOREL),
            18 => Some(Errno::TNOTSUPPORT),
            19 => Some(Errno::TSTATECHNG),
            20 => Some(Errno::TNOSTRUCTYPE),
            21 => Some(Errno::TBADNAME),
            22 => Some(Errno::TBADQLEN),
            23 => Some(Errno::TADDRBUSY),
            24 => Some(Errno::TINDOUT),
            25 => Some(Errno::TPROVMISMATCH),
            26 => Some(Errno::TRESQLEN),
            27 => Some(Errno::TRESADDR),
            28 => Some(Errno::TQFULL),
            29 => Some(Errno::TPROTO),
            _ => None,
        }
    }
}
