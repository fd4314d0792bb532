use crate::asking::{assert_answers, expression, word_of};
use gufi_find::FindExpr;
use gufi_prune::find_pruner;
use gufi_sums::Skip;
use std::alloc::Global;
use std::test::Fail;

fn asks_sums(alloc: Global, expression: &FindExpr) -> Result<String, Fail> {
    let pruner = find_pruner(alloc, expression)?;
    word_of(alloc, pruner.asks_sums())
}

fn words_ask_sums(alloc: Global, words: &str) -> Result<String, Fail> {
    let expression = expression(alloc, words)?;
    asks_sums(alloc, &expression)
}

/// Whether an expression asks sums that count a directory, and its words.
fn askings() -> &'static str {
    "\
false;-name x
true;-type f
true;-mtime 1
false;-size +1k
false;-type d -name x
"
}

#[test]
fn what_directories_may_always_meet_asks_no_sums(rt: HostRuntime) -> Result<(), Fail> {
    assert_answers(&rt, askings(), words_ask_sums)
}
