//! Scripts: a shape, and the calls of each thread.
ghost use Rattle.std.specs.Prelude.{◌≡◌, map};

use oak_model::{Key, Name, RecipeKind, Shape, Value};
use std::marker::Model;

/// A call line of a script. Both bounds of a scan belong to its range, and each may be missing.
#[derive(Debug, Drop)]
pub enum Call {
    Put {
        key: Key,
        value: Value,
    },
    Get {
        key: Key,
    },
    PutNew {
        key: Key,
        value: Value,
    },
    Compute {
        key: Key,
        recipe: RecipeKind,
        argument: u64,
    },
    Upsert {
        key: Key,
        value: Value,
        recipe: RecipeKind,
        argument: u64,
    },
    Remove {
        key: Key,
    },
    Hold {
        name: Name,
        key: Key,
    },
    Look {
        name: Name,
    },
    Scan {
        low: Option<Key>,
        high: Option<Key>,
    },
    Back {
        low: Option<Key>,
        high: Option<Key>,
    },
}

/// The calls of each thread, in their order.
#[derive(Debug, Drop)]
pub struct Threads {
    threads: Vec<Vec<Call>>,
}

impl Model for Threads {
    ghost use Rattle.std.specs.Prelude.{List, map};
    ghost use Rattle.oak_script.specs.declared.scripts.Call.{Call};

    ghost Value = { List (List Call) };

    ghost view = { λ t. map (λ v. v.items) t.threads.items };
}

impl Threads {
    pub fn of(threads: Vec<Vec<Call>>) -> Threads
        ensures { result ≡ map (λ v. v.items) threads.items }
    {
        Threads { threads }
    }

    pub fn as_slice(&self) -> &[Vec<Call>]
        ensures { map (λ v. v.items) result.now ≡ self.now }
    {
        self.threads.as_slice()
    }

    pub fn into_vec(self) -> Vec<Vec<Call>>
        ensures { map (λ v. v.items) result.items ≡ self }
    {
        self.threads
    }
}

/// A script: the shape of the table that it asks for, which has a pass more than there are threads,
/// and the calls of its threads.
#[derive(Debug, Drop)]
pub struct Script {
    pub shape: Shape,
    pub threads: Threads,
}
