//! Goes down a tree as high as the highest that the grammar takes and drops it, which shows that
//! both fit a stack.
#![tactic(auto)]

use base_text::BinaryOp;
use js_syntax::Expr;
use sqlite_items::Boxed;
use std::alloc::{AllocError, Global};
use std::io;

/// The expressions on the leftmost path of the highest tree: 64 levels, each with 64 suffixes and 64
/// operators of each of six chains, and a name.
const HIGHEST: u32 = 64 * 7 * 64 + 1;

/// How many expressions stand on the leftmost path, of so many at most.
fn height(e: &Expr, most: u32) -> u32 {
    if most == 0 {
        return 0;
    }
    match e {
        Expr::Binary(_, left, _) => height(left.get(), most - 1).saturating_add(1),
        _ => 1,
    }
}

/// A left chain of sums, of so many expressions.
fn tall(alloc: Global, height: u32) -> Result<Expr, AllocError> {
    let mut tree = Expr::This;
    for _ in 1..height {
        let left = Boxed::new(alloc, tree)?;
        let right = Boxed::new(alloc, Expr::This)?;
        tree = Expr::Binary(BinaryOp::Add, left, right);
    }
    Ok(tree)
}

fn main(rt: HostRuntime) -> io::Result<()> {
    let tree = tall(rt.alloc(), HIGHEST)?;
    println!(rt; "a tree of height {}", height(&tree, HIGHEST))?;
    drop(tree);
    println!(rt; "dropped")?;
    Ok(())
}
