//! Flags that calls take and answer, with the numbers that XNS gives them.

/// Of sends and receives: the message goes on with the next one of the kind, normal or expedited.
pub const T_MORE: u32 = 1;

/// Of sends and receives: the data are expedited.
pub const T_EXPEDITED: u32 = 2;
