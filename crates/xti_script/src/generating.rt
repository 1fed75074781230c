//! Generated scripts: the same script for the same number.

mod calls;
mod connection;
mod laws;
mod ring;
mod scripts;
mod sizes;

pub use laws::generated_scripts_have_texts;
pub use scripts::generate;
