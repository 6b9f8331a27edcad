//! Laws over the definitions, as the contracts of functions that do nothing.
ghost use Rattle.std.specs.Prelude.{◌≡◌, ◌↔◌, List, ℕ, ℤ, Ok, Some};
ghost use Rattle.js_ops.specs.Numbers.{IsQuotient, quotient};
ghost use Rattle.js_ops.specs.Numerals.{number_spelled};
ghost use Rattle.js_ops.specs.Spelled.{Spells};
ghost use Rattle.js_ops.specs.declared.primitive.Primitive.TheVariants.{Number};

/// A text spells a number just where it is white space, `-` or nothing, decimal digits and white space, and it is that of
/// the digits; so it spells one at most.
pub fn numbers_are_spelled_by_the_grammar()
    ensures { (t : List ℕ) (n : ℤ) → (number_spelled t ≡ Some n) ↔ Spells t n }
{}

/// A division gives a number just where that number times the divisor, which isn't 0, is the dividend.
pub fn quotients_are_exact()
    ensures { (a b q : ℤ) → (quotient a b ≡ Ok (Number q)) ↔ IsQuotient a b q }
{}
