//! Four programs that use the library from code, one after the other, each in a module of its own.
#![tactic(auto)]

mod connection;
mod datagram;
mod poll;
mod server;
mod sides;

use std::io::Print;
use std::process::ExitCode;

/// Prints the line above what an example prints; whether that was printed.
fn headed<R: Print>(rt: &R, name: &str) -> bool {
    println!(rt; "{name}:").is_ok()
}

fn main(rt: HostRuntime) -> ExitCode {
    // Each runs to its end, also where one before it failed.
    let mut well = headed(&rt, "datagram") & datagram::run(&rt);
    well &= headed(&rt, "connection") & connection::run(&rt);
    well &= headed(&rt, "server") & server::run(&rt);
    well &= headed(&rt, "poll") & poll::run(&rt);
    if well {
        ExitCode::SUCCESS
    } else {
        ExitCode::FAILURE
    }
}
