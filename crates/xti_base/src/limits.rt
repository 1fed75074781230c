//! The limits and numbers of the profile, each of them once. Definitions import them from here.

/// The places of endpoints in version 1 of scripts and journals, and so the most endpoints that are open at once.
pub const PLACES_ONE: usize = 64;

/// The places of endpoints in version 2, the most that providers may have.
pub const MOST_PLACES: usize = 256;

/// The number of descriptors, of 32 bits.
pub const DESCRIPTORS: u64 = 4_294_967_296;

/// What stands for a descriptor or a sequence number where there is none: no endpoint is ever opened with it.
pub const NO_NUMBER: u32 = 4_294_967_295;

/// The last sequence number that an indication may have.
pub const LAST_SEQUENCE: u32 = 4_294_967_295;

/// The most cells that a call names: ten endpoints, and the switch.
pub const MOST_TOUCHED: usize = 11;

/// The greatest number of a worker; worker 0 is the setup.
pub const LAST_WORKER: u32 = 32;

/// How many numbers a worker may have.
pub const WORKERS: usize = LAST_WORKER as usize + 1;

/// The most bytes of an address.
pub const MOST_ADDRESS: usize = 64;

/// The most bytes of options.
pub const MOST_OPTIONS: usize = 256;

/// The most bytes of data that go with a request, a confirmation or a disconnect.
pub const MOST_CONNECT_DATA: usize = 64;

/// The most bytes of one send.
pub const MOST_SEND: usize = 65_536;

/// The most bytes of a message with a limit, and of a buffer.
pub const MOST_SIZE: u32 = 65_536;

/// The most parts of a send or a receive by a vector, T_IOV_MAX.
pub const MOST_PARTS: usize = 16;

/// The most indications of a listener's queue.
pub const MOST_QUEUE: u32 = 8;

/// The most datagrams that wait at an endpoint.
pub const MOST_DATAGRAMS: usize = 16;

/// The most ends of messages that wait among normal data.
pub const MOST_ENDS: usize = 256;

/// The most ends of messages that wait among expedited data.
pub const MOST_EXPEDITED_ENDS: usize = 16;

/// The most bytes of expedited data that wait.
pub const MOST_EXPEDITED: usize = 256;

/// The most bytes of one expedited message.
pub const MOST_EXPEDITED_MESSAGE: u32 = 128;

/// The most lines of a script.
pub const MOST_LINES: usize = 100_000;

/// The most bytes of the arguments of a script's lines together.
pub const MOST_ARGUMENT_BYTES: usize = 4_194_304;

/// The most steps of a script: one for each line, and one for each byte of an argument.
pub const MOST_STEPS: usize = MOST_LINES + MOST_ARGUMENT_BYTES;

/// The most bytes of an input.
pub const MOST_INPUT: usize = 67_108_864;

/// The most bytes of a datagram, where a script's head doesn't say otherwise.
pub const USUAL_DATAGRAM: u32 = 8_192;

/// The bytes of each buffer of a new endpoint, where a script's head doesn't say otherwise.
pub const USUAL_BUFFER: u32 = 16_384;
