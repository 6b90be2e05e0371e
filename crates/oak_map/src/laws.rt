//! Laws of maps.
ghost use Rattle.std.specs.Prelude.{ℕ, List};
ghost use Rattle.oak_model.specs.declared.cells.CellCall.{CellCall};
ghost use Rattle.oak_model.specs.declared.replies.Wrote.{Wrote};
ghost use Rattle.oak_model.specs.Limits.{Sizes};
ghost use Rattle.oak_core.specs.declared.states.PassState.{PassState};
ghost use Rattle.oak_map.specs.LonePuts.{IsReply};
ghost use Rattle.oak_map.specs.RoomForKeys.{AreFew, LonePut};

/// A law: a map of the shape of [`Shape::for_keys`](oak_model::Shape::for_keys) has room for its keys. A call that puts, by a
/// pass that is alone, is answered and not `Full`, where no header is worn out, the keys and the values are no longer than
/// those that the shape is made for, and behind the call there are no more keys.
pub fn keys_have_room()
    ensures { (z : Sizes) (key : List ℕ) (ask : CellCall) (v w : PassState) (y : Wrote) → AreFew z key ask v → LonePut z key ask v w y → IsReply y }
{}
