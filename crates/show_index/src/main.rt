// The index of board T: built, refreshed, and asked for conflicts. Every cell is shown. Who asks for an
// entry makes the tables anew, so that nobody passes them on. Refusals are replayed: replay_vectors.

#![tactic(auto)]

mod board;
mod conflicts;
mod index;
mod refreshes;

use show::Page;
use std::io;

fn main(rt: HostRuntime) -> io::Result<()> {
    let mut page = Page::new(rt.stdout());
    refreshes::show_refreshes(&mut page);
    conflicts::show_conflicts(&mut page);
    page.end()
}
