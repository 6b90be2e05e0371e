//! What is shown of a map and of its passes: their names alone, as their words change while they are read.
use crate::map::{MapPass, OakMap};
use std::fmt::{self, Debug, Formatter};
use std::sync::Wait;

impl<R: Wait + Drop + Send> Debug for OakMap<R> {
    fn fmt<W: fmt::Write>(&self, f: &mut Formatter<W>) -> fmt::Result {
        f.debug_struct("OakMap").finish_non_exhaustive()
    }
}

impl Debug for MapPass {
    fn fmt<W: fmt::Write>(&self, f: &mut Formatter<W>) -> fmt::Result {
        f.debug_struct("MapPass").finish_non_exhaustive()
    }
}
