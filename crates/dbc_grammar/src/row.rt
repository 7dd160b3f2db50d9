//! What the statements of a message make, but for its tree.

ghost use Rattle.std.specs.Prelude.{◌<◌, length, All};

use bench_model::Signal;
use multiplex_tree::{Link, Mark};

/// The signals of a message, their marks and their links.
#[derive(Debug, Drop)]
pub struct Row {
    pub signals: Vec<Signal>,
    pub marks: Vec<Mark>,
    pub links: Vec<Link>,
    ghost within: { All (λ l. l.child < length marks.items) links.items },
}
