//! Words of texts: the lines of a text, the words of a line, what words stand for, and those of printed lines.
#![tactic(auto)]

mod hex;
mod noted;
mod operands;
mod options;
mod texts;
mod values;
mod words;
mod writing;

pub use hex::hex_bytes;
pub use noted::{FieldFail, Noted};
pub use operands::{action_in, mode_in, provider_in};
pub use options::options_in;
pub use texts::{first_line, is_ascii, is_name};
pub use values::{MOST_PIECES, bytes_in, counted, number_in, parts_in, sizes_in};
pub use words::Words;
pub use writing::{put_number, put_octets, put_pairs, put_signed, put_text};
