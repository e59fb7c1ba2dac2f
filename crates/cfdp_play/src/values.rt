//! Arrays of JSON.
ghost use Rattle.std.specs.Prelude.{◌≤◌, All};
ghost use Rattle.serde_json.specs.Data.{depth};
ghost use Rattle.serde_json.specs.View.{view};

use serde_json::Value;
use std::alloc::{AllocError, Global};

/// Values that have no more than arrays or objects of plain values.
#[derive(Drop)]
pub struct Values {
    all: Vec<Value>,
    ghost shallow: { All (λ it. depth (view it) ≤ 1) all.items },
}

impl Values {
    /// Returns no values.
    pub fn new(alloc: Global) -> Values {
        Values {
            all: Vec::new(alloc),
        }
    }

    /// Adds a value.
    ///
    /// # Errors
    ///
    /// `AllocError` if there is no memory for it.
    pub fn push(&mut self, value: Value) -> Result<(), AllocError>
        requires { depth (view value) ≤ 1 }
    {
        Ok(self.all.push(value)?)
    }

    /// Returns all of them, as an array.
    pub fn into_value(self) -> Value
        ensures { depth (view result) ≤ 2 }
    {
        let Values { all } = self;
        Value::Array(all)
    }
}
