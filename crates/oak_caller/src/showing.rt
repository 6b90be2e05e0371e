//! What is shown of a store and of a caller.
use crate::caller::Caller;
use crate::store::Store;
use std::fmt::{self, Debug, Formatter};
use std::sync::Wait;

impl<R: Wait + Drop + Send> Debug for Caller<'_, R> {
    fn fmt<W: fmt::Write>(&self, f: &mut Formatter<W>) -> fmt::Result {
        f.debug_struct("Caller")
            .field("last_call", &self.last)
            .finish_non_exhaustive()
    }
}

impl<R: Wait + Drop + Send> Debug for Store<R> {
    fn fmt<W: fmt::Write>(&self, f: &mut Formatter<W>) -> fmt::Result {
        f.debug_struct("Store").finish_non_exhaustive()
    }
}
