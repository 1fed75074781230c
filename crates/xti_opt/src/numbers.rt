//! The numbers of options, actions and results (XNS, `<xti.h>`), with the values of this profile.

/// The level of the options of XTI itself.
pub const XTI_GENERIC: u32 = 65535;

/// The size of the send buffer, in bytes.
pub const XTI_SNDBUF: u32 = 4097;

/// The size of the receive buffer, in bytes.
pub const XTI_RCVBUF: u32 = 4098;

/// The low-water mark of the send buffer, in bytes; read only.
pub const XTI_SNDLOWAT: u32 = 4099;

/// The low-water mark of the receive buffer, in bytes; read only.
pub const XTI_RCVLOWAT: u32 = 4100;

/// The action that sets options.
pub const T_NEGOTIATE: u32 = 4;

/// The action that asks whether options could be set.
pub const T_CHECK: u32 = 8;

/// The action that tells default values.
pub const T_DEFAULT: u32 = 16;

/// The action that tells current values.
pub const T_CURRENT: u32 = 128;

/// The result of an option that is as it was asked.
pub const T_SUCCESS: u32 = 32;

/// The result of an option whose value isn't allowed.
pub const T_FAILURE: u32 = 64;

/// The result of an option that is set to less than it was asked.
pub const T_PARTSUCCESS: u32 = 256;

/// The result of an option that can't be set.
pub const T_READONLY: u32 = 512;

/// The result of an option that isn't known.
pub const T_NOTSUPPORT: u32 = 1024;

/// The value of every low-water mark.
pub(crate) const LOW_WATER_MARK: u32 = 1;
