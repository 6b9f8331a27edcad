//! What small programs do by the definitions, as the contracts of functions that do nothing.

ghost use Rattle.js_semantics.specs.BeginningFacts.{Beginnings};
ghost use Rattle.js_semantics.specs.BuiltinFacts.{Builtins};
ghost use Rattle.js_semantics.specs.EntryFacts.{Entries};
ghost use Rattle.js_semantics.specs.Facts.{Operators};
ghost use Rattle.js_semantics.specs.FormFacts.{Forms};
ghost use Rattle.js_semantics.specs.FunctionFacts.{Functions};
ghost use Rattle.js_semantics.specs.MemberFacts.{Members};
ghost use Rattle.js_semantics.specs.RequestFacts.{Requests};
ghost use Rattle.js_semantics.specs.StatementFacts.{Statements};
ghost use Rattle.js_semantics.specs.StopFacts.{Stops};
ghost use Rattle.js_semantics.specs.TextFacts.{TextLimits};
ghost use Rattle.js_semantics.specs.XrayFacts.{Looks};
ghost use Rattle.js_semantics.specs.MemberRows.{EachMemberHasARow};

/// Sums, texts, remainders, names and throws: what each small program logs, how it ends and the units that it uses.
pub fn operators_are_computed()
    ensures { Operators }
{}

/// The same of closures, construction, getters and setters, prototypes, arguments and arrays.
pub fn functions_are_computed()
    ensures { Functions }
{}

/// The same of loops, jumps, keys, `try`, declarations and branches.
pub fn statements_are_computed()
    ensures { Statements }
{}

/// The same of entries that stop for want of fuel, levels or cells, and of what is shown of a thrown value.
pub fn stops_are_computed()
    ensures { Stops }
{}

/// What a userscript asks for when it reads and writes the document's title and logs, and the units that it uses.
pub fn requests_are_computed()
    ensures { Requests }
{}

/// What a userscript asks for by members of the outside: how their arguments are read, what follows an answer, events that
/// are dispatched, and answers that lead nowhere.
pub fn members_are_computed()
    ensures { Members }
{}

/// What a userscript does with another's objects: what is shown by an Xray, the script's own properties on it, what is
/// opaque, and what it has no right to.
pub fn looks_are_computed()
    ensures { Looks }
{}

/// Each prototype that a rule names stands at its place before anything, and the array functions that are scripts run.
pub fn beginnings_are_computed()
    ensures { Beginnings }
{}

/// The same of the forms that the others leave out: counting, conversions, `instanceof`, `||`, orders and deletion.
pub fn forms_are_computed()
    ensures { Forms }
{}

/// The same of built-ins: objects, functions, arrays, texts, numbers and errors.
pub fn builtins_are_computed()
    ensures { Builtins }
{}

/// The same of the greatest text, of 262,144 bytes, and of one that is longer.
pub fn text_limits_are_computed()
    ensures { TextLimits }
{}

/// What entries of scripts, timers and listeners do one after the other: the machine that one leaves is the next one's.
pub fn entries_are_computed()
    ensures { Entries }
{}

/// Each member has a row by which a script asks for it.
pub fn each_member_has_a_row()
    ensures { EachMemberHasARow }
{}
