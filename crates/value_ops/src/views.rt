//! Views: values that a call found, to be read later.
ghost use Rattle.std.specs.Prelude.{◌≡◌, IfOk, IfErr, None};
ghost use Rattle.std.specs.Borrow.{sem, RestsIfErr};
ghost use Rattle.oak_model.specs.Key.{IsKey};
ghost use Rattle.oak_core.specs.Passes.{IsPassOf, Stays, state, key, call_of};
ghost use Rattle.oak_core.specs.contracts.table.Pass as table_pass;
ghost use Rattle.value_ops.specs.Pinning.{PinsLive};
ghost use Rattle.value_ops.specs.Views.{Viewed, KnowsView, NotRead, RestsUnread, ReadsView, why_of};

use crate::home::Home;
use crate::pinning::{BadPin, HeaderPin, pin_at};
use crate::reading::Reading;
use arena_core::words::key_in_place;
use oak_core::{OakTable, Pass};
use oak_model::GREATEST_KEY;
use std::marker::Model;
use thiserror::Error;

/// Why a view can't be read.
#[derive(Clone, Copy, Debug, PartialEq, Eq, Error)]
pub enum NoRead {
    /// The value's life is over.
    #[error("the value was removed")]
    Gone,
    /// Its header is locked.
    #[error("the value is being written")]
    Busy,
}

/// A value that a call found, by the life of its key. It holds the key in place, takes no memory, and
/// may be dropped.
#[derive(Debug, Drop)]
pub struct ValueView {
    bytes: [u8; GREATEST_KEY],
    len: usize,
    home: Home,
    at: u64,
}

impl Model for ValueView {
    ghost use Rattle.std.specs.Prelude.{◌≡◌, ◌<◌, ◌≤◌, length, take};
    ghost use Rattle.oak_model.specs.declared.limits.TheConstants.{GREATEST_KEY};
    ghost use Rattle.value_ops.specs.Views.{Viewed};

    ghost Value = { Viewed };

    ghost view = { λ w. record {
      key = take w.len w.bytes;
      header = w.home.header;
      generation = w.home.generation;
      at = w.at;
    } };

    ghost invariant = { λ w. (length w.bytes ≡ GREATEST_KEY) × (0 < w.len) × (w.len ≤ GREATEST_KEY) };
}

/// Why a view can't be read whose header can't be pinned.
fn why_not(bad: BadPin) -> NoRead
    ensures { result ≡ why_of bad }
{
    match bad {
        BadPin::Locked => NoRead::Busy,
        BadPin::Dead { stamp: _ } | BadPin::Other => NoRead::Gone,
    }
}

impl ValueView {
    /// A view of the key's life that has this home, made when the key's stamp was `at`.
    pub fn make(key: &[u8], home: Home, at: u64) -> ValueView
        requires { IsKey key.now }
        ensures { result ≡ record { key = key.now; header = home.header; generation = home.generation; at = at } }
    {
        ValueView {
            bytes: key_in_place(key),
            len: key.len(),
            home,
            at,
        }
    }

    /// The key.
    pub fn key(&self) -> &[u8]
        ensures { result.now ≡ self.now.key }
    {
        &self.bytes[..self.len]
    }

    /// The stamp of the key when the view was made.
    pub fn at(&self) -> u64
        ensures { result ≡ self.now.at }
    {
        self.at
    }

    /// Pins the header of the value, where its life goes on and it is not locked. The steps are the pin, its
    /// end and a load alone, and take no block.
    pub fn pin(&self, table: &OakTable, pass: &mut Pass) -> Result<HeaderPin, NoRead>
        requires own { IsPassOf table.now pass.old }
        requires known { KnowsView (key table.now) self.now (state pass.old) }
        requires unpinned { (state pass.old).headers.pin ≡ None }
        ensures own { Stays pass.old pass.new }
        ensures good { IfOk result (λ p. (p.header ≡ self.now.header) × (p.generation ≡ self.now.generation)
            × PinsLive (key table.now) (call_of pass.old) self.now.header self.now.generation (state pass.old)
            (state pass.new)) }
        ensures bad { IfErr result (λ why. NotRead (key table.now) (call_of pass.old) self.now why (state pass.old) (state pass.new)) }
    {
        match pin_at(table, pass, self.home.header, self.home.generation) {
            Ok(pin) => Ok(pin),
            Err(bad) => Err(why_not(bad)),
        }
    }

    /// Pins the header of the value, and reads it. The steps are loads, the pin and its end alone, and take no
    /// block.
    pub fn read<'p>(&self, table: &'p OakTable, pass: &'p mut Pass) -> Result<Reading<'p>, NoRead>
        requires { IsPassOf table.now pass.old × KnowsView (key table.now) self.now (state pass.old) × ((state pass.old).headers.pin ≡ None) }
        ensures* rests { sem 𝓛 (RestsIfErr table_pass.the_row pass.entry (λ r. r.pass.ghost_name) result
            (λ n. IfErr result (λ why. RestsUnread (key table.now) (call_of pass.old) self.now why pass.old n))) }
        ensures same_reference { IfOk result (λ r. r.pass.ghost_name ≡ pass.entry.ghost_name) }
        ensures table { IfOk result (λ r. r.table ≡ table.entry) }
        ensures own { IfOk result (λ r. Stays pass.old r.pass.now) }
        ensures reads { IfOk result (λ r. ReadsView (key table.now) (call_of pass.old) self.now (state pass.old) r) }
    {
        read_view(pass, table, self)
    }
}

/// [`ValueView::read`], with the pass first: in this form its caller learns what becomes of the pass
/// where nothing is read.
pub fn read_view<'p>(
    pass: &'p mut Pass,
    table: &'p OakTable,
    view: &ValueView,
) -> Result<Reading<'p>, NoRead>
    requires { IsPassOf table.now pass.old × KnowsView (key table.now) view.now (state pass.old) × ((state pass.old).headers.pin ≡ None) }
    ensures* rests { sem 𝓛 (RestsIfErr table_pass.the_row pass.entry (λ r. r.pass.ghost_name) result
        (λ n. IfErr result (λ why. RestsUnread (key table.now) (call_of pass.old) view.now why pass.old n))) }
    ensures same_reference { IfOk result (λ r. r.pass.ghost_name ≡ pass.entry.ghost_name) }
    ensures table { IfOk result (λ r. r.table ≡ table.entry) }
    ensures own { IfOk result (λ r. Stays pass.old r.pass.now) }
    ensures reads { IfOk result (λ r. ReadsView (key table.now) (call_of pass.old) view.now (state pass.old) r) }
{
    match view.pin(table, pass) {
        Err(why) => Err(why),
        Ok(pin) => Ok(pin.reading(table, pass)),
    }
}
