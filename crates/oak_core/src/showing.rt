//! What is shown of a table, open or closed, and of its passes: their shapes and the present call, as the words change
//! while they are read.
use crate::closing::Closed;
use crate::table::{OakTable, Pass};
use std::fmt::{self, Debug, Formatter};

impl Debug for OakTable {
    fn fmt<W: fmt::Write>(&self, f: &mut Formatter<W>) -> fmt::Result {
        f.debug_struct("OakTable")
            .field("shape", &self.shape)
            .finish_non_exhaustive()
    }
}

impl Debug for Pass {
    fn fmt<W: fmt::Write>(&self, f: &mut Formatter<W>) -> fmt::Result {
        f.debug_struct("Pass")
            .field("call", &self.call)
            .finish_non_exhaustive()
    }
}

impl Debug for Closed {
    fn fmt<W: fmt::Write>(&self, f: &mut Formatter<W>) -> fmt::Result {
        f.debug_struct("Closed")
            .field("shape", &self.shape)
            .finish_non_exhaustive()
    }
}
