//! Lists of one or two values, the arguments of requests.

ghost use Rattle.std.specs.Prelude.{◌≡◌, [], ◌∷◌, IfOk};

use base_text::Mem;
use door::{Value, Values};
use std::alloc::Global;

/// The list of this value alone.
pub fn one(alloc: Global, value: Value) -> Mem<Values>
    ensures { IfOk result (λ values. values ≡ value ∷ []) }
{
    let mut values = Values::new(alloc);
    values.push(value)?;
    Ok(values)
}

/// The list of these two values.
pub fn two(alloc: Global, first: Value, second: Value) -> Mem<Values>
    ensures { IfOk result (λ values. values ≡ first ∷ (second ∷ [])) }
{
    let mut values = Values::new(alloc);
    values.push(first)?;
    values.push(second)?;
    Ok(values)
}
