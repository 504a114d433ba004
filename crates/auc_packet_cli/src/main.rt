//! Reads packets, each a line of hexadecimal digits, and prints what each is and the bytes that writing it gives,
//! or why it is refused.
#![tactic(auto)]

mod answer;
mod attr_text;
mod text;

use std::io;

fn main(rt: HostRuntime) -> io::Result<()> {
    for line in rt.lines(rt.alloc()) {
        let text = text::text_of_line(rt.alloc(), line?.as_str())?;
        println!(rt; "{text}")?;
    }
    Ok(())
}
