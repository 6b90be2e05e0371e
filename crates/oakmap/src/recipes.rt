//! The recipes by which the threads of a script compute.
ghost use Rattle.std.specs.Prelude.{◌≡◌, ◌<◌, ◌+◌, ◌^◌, OnOk, length};
ghost use Rattle.std.specs.List.{AllByRecursion};

use std::alloc::AllocError;
use value_ops::Recipe;

/// Adds a recipe to those of a run.
pub fn add(
    recipes: &mut Vec<Box<dyn Recipe + Send>>,
    recipe: Box<dyn Recipe + Send>,
) -> Result<(), AllocError>
    requires counts { AllByRecursion (λ r. calls r < 2 ^ 63) recipes.old.items }
    requires count { calls recipe < 2 ^ 63 }
    ensures counts { AllByRecursion (λ r. calls r < 2 ^ 63) recipes.new.items }
    ensures more { OnOk result (length recipes.new.items ≡ length recipes.old.items + 1) }
{
    recipes.push(recipe)?;
    Ok(())
}
