//! What may go to another thread, and come back from one.

use bench_model::{Bench, Change, CheckFault, Item, Plain, Text, Valid};
use exact_scale::{Decimal, DecimalFault, Exact, Scale, Wide};
use multiplex_tree::Tree;

/// Values of such a type may go to another thread, and may be dropped there.
fn crosses<T: Send + Sync + Drop>() {}

#[test]
fn numbers_and_trees_cross_to_workers() {
    crosses::<Decimal>();
    crosses::<Scale>();
    crosses::<Exact>();
    crosses::<DecimalFault>();
    crosses::<Wide>();
    crosses::<Tree>();
}

#[test]
fn benches_and_records_cross_to_workers() {
    crosses::<Text>();
    crosses::<Valid>();
    crosses::<Change>();
    crosses::<Bench>();
    crosses::<Plain>();
    crosses::<Item>();
    crosses::<CheckFault>();
}
