//! What is in use of a table that was closed.

use oak_model::Usage;
use std::io;

/// Prints the least blocks and the headers that are in use.
pub fn print_used(rt: &impl Print, used: &Usage) -> io::Result<()> {
    println!(rt;
        "{} blocks and {} headers in use",
        used.blocks[0], used.headers
    )
}
