//! A pass of which nothing is asked any more. Whoever wants to know what a table's passes wrote and found joins and closes
//! instead.
use crate::table::Pass;

impl Pass {
    /// Gives up the pass. What it saw, met and wrote is told to nobody, its number is never given again, and what it
    /// holds on the table stays held.
    pub fn leave(self) {
        let Pass {
            seat,
            call: _,
            scratch: _,
            sorting: _,
            searches: _,
            header_search: _,
            tries: _,
            reader: _,
        } = self;
        drop(seat);
    }
}
