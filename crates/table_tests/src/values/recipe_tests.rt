//! Tests of recipes.
ghost use Rattle.std.specs.Prelude.{◌≡◌, length};

use crate::found::word_is;
use oak_core::Writing;
use oak_model::RecipeKind;
use std::process::Abort;
use std::test::Fail;
use value_ops::{Recipe, StepRecipe};

/// A recipe that tells how many bytes it was applied to last.
#[derive(Drop)]
struct LengthRecipe {
    step: StepRecipe,
    bytes: usize,
}

impl Recipe for LengthRecipe {
    ghost told_kind = { λ r. r.step.kind };

    ghost told_argument = { λ r. r.step.argument };

    ghost calls = { λ r. r.step.calls };

    ghost fed = { λ r value. r.bytes ≡ length value };

    fn tell(&mut self, kind: RecipeKind, argument: u64) {
        self.step.tell(kind, argument);
    }

    fn kind(&self) -> RecipeKind {
        self.step.kind()
    }

    fn argument(&self) -> u64 {
        self.step.argument()
    }

    fn apply(&mut self, value: &mut Writing) {
        self.bytes = value.len();
        self.step.apply(value);
    }

    fn calls(&self) -> u64 {
        self.step.calls()
    }
}

/// The recipe was told this kind and argument, and was not called.
fn is_told(rt: &impl Abort, recipe: &Box<dyn Recipe + Send>, kind: RecipeKind, argument: u64) {
    assert!(rt; recipe.kind() == kind);
    word_is(rt, "argument", recipe.argument(), argument);
    word_is(rt, "calls", recipe.calls(), 0);
}

#[test]
fn a_recipe_that_tells_of_its_bytes_is_boxed(rt: HostRuntime) -> Result<(), Fail> {
    let own = LengthRecipe {
        step: StepRecipe::make(),
        bytes: 0,
    };
    let mut recipe: Box<dyn Recipe + Send> = Box::new(rt.alloc(), own)?;
    recipe.tell(RecipeKind::Xor, 15);
    is_told(&rt, &recipe, RecipeKind::Xor, 15);
    Ok(())
}

#[test]
fn a_boxed_recipe_is_told_and_not_called(rt: HostRuntime) -> Result<(), Fail> {
    let mut recipe: Box<dyn Recipe + Send> = Box::new(rt.alloc(), StepRecipe::make())?;
    is_told(&rt, &recipe, RecipeKind::Rev, 0);
    recipe.tell(RecipeKind::Xor, 15);
    is_told(&rt, &recipe, RecipeKind::Xor, 15);
    Ok(())
}
