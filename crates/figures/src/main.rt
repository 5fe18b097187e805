// The bench figures and worked examples of bad input, each with what the card and its parts make of it.
#![tactic(auto)]

use std::io;

mod ask;
mod faults;
mod host;
mod media;
mod numbers;
mod packets;
mod rows;
mod say;
mod session;
mod tokens;
mod unsound;
mod values;

fn main(rt: HostRuntime) -> io::Result<()> {
    tokens::run(&rt)?;
    values::run(&rt)?;
    packets::run(&rt)?;
    media::run(&rt)?;
    session::run(&rt)?;
    rows::run(&rt)?;
    faults::run(&rt)?;
    numbers::run(&rt)?;
    unsound::run(&rt)
}
