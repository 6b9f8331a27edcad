//! A function with what its body declares.

ghost use Rattle.std.specs.Prelude.{◌≡◌, [], IfOk, None};
ghost use Rattle.js_semantics.specs.Bodies.{functions, var_names};

use crate::declared::{Declared, declared_in};
use base_text::{Mem, Text};
use js_syntax::{Function, Script, Shared};
use sqlite_items::Items;
use std::alloc::Global;
use std::marker::Model;

/// A function with what its body declares: the names of `var`, and the functions (ECMAScript, 8.2.6 to 8.2.8).
/// Contracts see the function alone.
#[derive(Drop)]
pub struct Code {
    function: Shared<Function>,
    declared: Declared,
}

impl Model for Code {
    ghost use Rattle.std.specs.Prelude.{◌≡◌};
    ghost use Rattle.std.specs.Coded.{codes};
    ghost use Rattle.js_semantics.specs.Bodies.{functions, var_names};
    ghost use Rattle.js_syntax.specs.declared.tree.Function.{Function};
    ghost use Rattle.js_syntax.specs.contracts.tree.Stmt as e;

    ghost Value = { Function };

    ghost coded = { Prim.hlevel (codes, e.the_row.coded) };

    ghost view = { λ c. c.function };

    ghost invariant = { λ c. (c.declared.names ≡ var_names c.function.body) × (c.declared.functions ≡ functions c.function.body) };
}

impl Code {
    /// A function as it is called. Its body is walked here, and by no call.
    pub fn new(alloc: Global, function: Shared<Function>) -> Mem<Code>
        ensures { IfOk result (λ code. code ≡ function) }
    {
        let declared = declared_in(alloc, function.get().body.as_slice())?;
        Ok(Code { function, declared })
    }

    /// A script as it is run: a function that has no name and takes nothing.
    pub fn of_script(alloc: Global, script: Script) -> Mem<Code>
        ensures { IfOk result (λ code. code ≡ record { name = None; params = []; body = script.body }) }
    {
        let function = Function {
            name: None,
            params: Items::new(alloc),
            body: script.body,
        };
        Code::new(alloc, Shared::new(alloc, function)?)
    }

    /// The function.
    pub fn function(&self) -> &Function
        ensures { result.now ≡ self.now }
    {
        self.function.get()
    }

    /// The names that `var` declares in the body, in order; a name that is declared twice is there twice.
    pub fn names(&self) -> &[Text]
        ensures { result.now ≡ var_names self.now.body }
    {
        self.declared.names.as_slice()
    }

    /// The functions that the body declares, in order.
    pub fn functions(&self) -> &[Shared<Function>]
        ensures { result.now ≡ functions self.now.body }
    {
        self.declared.functions.as_slice()
    }
}
