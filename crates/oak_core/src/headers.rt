//! Where the words of a table's headers lie, and where a pass searches next.
ghost use Rattle.std.specs.Prelude.{◌≡◌, ◌<◌, ◌≤◌};
ghost use Rattle.header_core.specs.Headers.{at_pin, at_place, at_stamp};
ghost use Rattle.oak_core.specs.Memory.{in_headers, index};
ghost use Rattle.oak_core.specs.Passes.{TriesStay, key, state, call_of, searches, header_search};

use crate::table::{OakTable, Pass};
use header_core::layout::{HEADER_WORDS, header_count};

impl OakTable {
    ghost use Rattle.oak_model.specs.declared.limits.TheConstants.{GREATEST_HEADERS};

    /// How many headers the table has.
    pub fn headers(&self) -> u32
        ensures is { result ≡ (key self.now).headers }
        ensures some { 0 < result }
        ensures few { result ≤ GREATEST_HEADERS }
    {
        header_count(self.sizes())
    }

    /// The number of a header's pin word.
    pub fn pin_at(&self, header: u32) -> u32
        requires { header < (key self.now).headers }
        ensures { result ≡ index (key self.now) (in_headers (at_pin header)) }
    {
        self.offsets.headers + header * HEADER_WORDS as u32
    }

    /// The number of a header's place word.
    pub fn place_at(&self, header: u32) -> u32
        requires { header < (key self.now).headers }
        ensures { result ≡ index (key self.now) (in_headers (at_place header)) }
    {
        self.pin_at(header) + 1
    }

    /// The number of a header's stamp word.
    pub fn stamp_at(&self, header: u32) -> u32
        requires { header < (key self.now).headers }
        ensures { result ≡ index (key self.now) (in_headers (at_stamp header)) }
    {
        self.pin_at(header) + 2
    }
}

impl Pass {
    /// The header at which the pass's next search for a free one begins.
    pub fn header_search(&self) -> u32
        ensures { result ≡ header_search self.now }
    {
        self.header_search
    }

    /// Sets the header at which the pass's next search for a free one begins.
    pub fn header_search_from(&mut self, header: u32)
        ensures search { header_search self.new ≡ header }
        ensures same { (self.new.seat.table_id ≡ self.old.seat.table_id) × (self.new.seat.id ≡ self.old.seat.id)
            × (state self.new ≡ state self.old) × (call_of self.new ≡ call_of self.old)
            × (searches self.new ≡ searches self.old) × (self.new.scratch ≡ self.old.scratch)
            × (self.new.sorting ≡ self.old.sorting) }
        ensures tries { TriesStay self.old self.new }
    {
        self.header_search = header;
    }
}
