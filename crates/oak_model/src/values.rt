//! Values.
ghost use Rattle.std.specs.Prelude.{◌≡◌, ◌↔◌, IfOk, IsTrue};
ghost use Rattle.oak_model.specs.Recipe.{IsArgument, recipe_result};
ghost use Rattle.oak_model.specs.Value.{IsValue};

use crate::limits::GREATEST_VALUE;
use crate::memory::OutOfMemory;
use crate::recipes::{RecipeKind, apply_kind};
use std::alloc::Global;
use std::marker::Model;

/// Whether the bytes can be a value: at most [`GREATEST_VALUE`] of them.
pub fn is_value(bytes: &[u8]) -> bool
    ensures { IsTrue result ↔ IsValue bytes.now }
{
    bytes.len() <= GREATEST_VALUE
}

/// The bytes of a value, at most [`GREATEST_VALUE`] of them.
#[derive(Debug, Drop)]
pub struct Value {
    bytes: Vec<u8>,
}

impl Model for Value {
    ghost use Rattle.std.specs.Prelude.{List, ℕ};
    ghost use Rattle.oak_model.specs.Value.{IsValue};

    ghost Value = { List ℕ };

    ghost view = { λ v. v.bytes.items };

    ghost invariant = { λ v. IsValue v.bytes.items };
}

impl Value {
    /// A value of these bytes.
    pub fn make(alloc: Global, bytes: &[u8]) -> Result<Value, OutOfMemory>
        requires { IsValue bytes.now }
        ensures { IfOk result (λ v. v ≡ bytes.now) }
    {
        let bytes = Vec::from_slice(alloc, bytes)?;
        Ok(Value { bytes })
    }

    /// The bytes of the value.
    pub fn bytes(&self) -> &[u8]
        ensures bytes { result.now ≡ self.now }
        ensures in_range { IsValue self.now }
    {
        self.bytes.as_slice()
    }

    /// A second value of the same bytes.
    pub fn copy(&self, alloc: Global) -> Result<Value, OutOfMemory>
        ensures { IfOk result (λ v. v ≡ self.now) }
    {
        Value::make(alloc, self.bytes.as_slice())
    }

    /// The value that the recipe makes of this one.
    pub fn computed(
        &self,
        alloc: Global,
        kind: RecipeKind,
        argument: u64,
    ) -> Result<Value, OutOfMemory>
        requires { IsArgument kind argument }
        ensures { IfOk result (λ v. v ≡ recipe_result kind argument self.now) }
    {
        let mut bytes = Vec::from_slice(alloc, self.bytes.as_slice())?;
        apply_kind(kind, argument, bytes.as_mut_slice());
        Ok(Value { bytes })
    }
}
