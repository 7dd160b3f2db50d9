//! Equal values of their own, in memory of their own.

ghost use Rattle.std.specs.Prelude.{◌≡◌, IfOk, map};

use crate::{Body, Coding, Database, Entry, Label, Message, Reading, Signal, SignalValue, Text};
use multiplex_tree::{List, Parent, Range, Tree};
use std::alloc::{AllocError, Global};

/// A value that can be copied with all that it holds.
pub(crate) trait DeepCopy: Sized + Drop {
    /// An equal value in memory of its own.
    fn deep_copy(&self, alloc: Global) -> Result<Self, AllocError>
        ensures { IfOk result (λ copy. copy ≡ self.now) };
}

impl<T: DeepCopy> DeepCopy for List<T> {
    fn deep_copy(&self, alloc: Global) -> Result<List<T>, AllocError> {
        let items = self.items();
        let mut copies = Vec::with_capacity(alloc, items.len())?;
        for item in items {
            copies.push(item.deep_copy(alloc)?)?;
        }
        Ok(List::of(copies))
    }
}

impl<T: DeepCopy> DeepCopy for Option<T> {
    fn deep_copy(&self, alloc: Global) -> Result<Option<T>, AllocError> {
        match self {
            Some(value) => Ok(Some(value.deep_copy(alloc)?)),
            None => Ok(None),
        }
    }
}

impl DeepCopy for Text {
    fn deep_copy(&self, alloc: Global) -> Result<Text, AllocError> {
        self.copy(alloc)
    }
}

impl DeepCopy for Range {
    fn deep_copy(&self, _alloc: Global) -> Result<Range, AllocError> {
        Ok(*self)
    }
}

impl DeepCopy for Parent {
    fn deep_copy(&self, alloc: Global) -> Result<Parent, AllocError> {
        Ok(Parent {
            signal: self.signal,
            ranges: self.ranges.deep_copy(alloc)?,
        })
    }
}

impl DeepCopy for Tree {
    fn deep_copy(&self, alloc: Global) -> Result<Tree, AllocError> {
        Ok(Tree {
            parents: self.parents.deep_copy(alloc)?,
        })
    }
}

impl DeepCopy for Label {
    fn deep_copy(&self, alloc: Global) -> Result<Label, AllocError> {
        Ok(Label {
            raw: self.raw,
            text: self.text.copy(alloc)?,
        })
    }
}

impl DeepCopy for Entry {
    fn deep_copy(&self, alloc: Global) -> Result<Entry, AllocError> {
        match self {
            Entry::Logical { raw, text } => Ok(Entry::Logical {
                raw: *raw,
                text: text.deep_copy(alloc)?,
            }),
            Entry::Physical {
                low,
                high,
                scale,
                unit,
            } => Ok(Entry::Physical {
                low: *low,
                high: *high,
                scale: *scale,
                unit: unit.copy(alloc)?,
            }),
            Entry::Plain => Ok(Entry::Plain),
        }
    }
}

impl DeepCopy for Coding {
    fn deep_copy(&self, alloc: Global) -> Result<Coding, AllocError> {
        match self {
            Coding::Scaled {
                scale,
                unit,
                labels,
            } => Ok(Coding::Scaled {
                scale: *scale,
                unit: unit.copy(alloc)?,
                labels: labels.deep_copy(alloc)?,
            }),
            Coding::Listed { entries } => Ok(Coding::Listed {
                entries: entries.deep_copy(alloc)?,
            }),
        }
    }
}

impl DeepCopy for Signal {
    fn deep_copy(&self, alloc: Global) -> Result<Signal, AllocError> {
        Ok(Signal {
            name: self.name.copy(alloc)?,
            start: self.start,
            size: self.size,
            order: self.order,
            signed: self.signed,
            float: self.float,
            coding: self.coding.deep_copy(alloc)?,
        })
    }
}

impl DeepCopy for Message {
    fn deep_copy(&self, alloc: Global) -> Result<Message, AllocError> {
        Ok(Message {
            name: self.name.copy(alloc)?,
            key: self.key,
            length: self.length,
            signals: self.signals.deep_copy(alloc)?,
            tree: self.tree.deep_copy(alloc)?,
        })
    }
}

impl DeepCopy for Database {
    fn deep_copy(&self, alloc: Global) -> Result<Database, AllocError> {
        Ok(Database {
            messages: self.messages.deep_copy(alloc)?,
        })
    }
}

impl DeepCopy for SignalValue {
    fn deep_copy(&self, alloc: Global) -> Result<SignalValue, AllocError> {
        Ok(SignalValue {
            name: self.name.copy(alloc)?,
            raw: self.raw,
            value: self.value,
            unit: self.unit.copy(alloc)?,
            label: self.label.deep_copy(alloc)?,
        })
    }
}

impl DeepCopy for Body {
    fn deep_copy(&self, alloc: Global) -> Result<Body, AllocError> {
        match self {
            Body::Message { name, signals } => Ok(Body::Message {
                name: name.copy(alloc)?,
                signals: signals.deep_copy(alloc)?,
            }),
            Body::Unmatched { key, bytes } => Ok(Body::Unmatched {
                key: *key,
                bytes: bytes.copy(alloc)?,
            }),
            Body::Remote { key } => Ok(Body::Remote { key: *key }),
            Body::Error { id } => Ok(Body::Error { id: *id }),
            Body::Bad => Ok(Body::Bad),
            Body::Transport {
                pgn,
                sa,
                da,
                bytes,
                name,
                signals,
            } => Ok(Body::Transport {
                pgn: *pgn,
                sa: *sa,
                da: *da,
                bytes: bytes.copy(alloc)?,
                name: name.deep_copy(alloc)?,
                signals: signals.deep_copy(alloc)?,
            }),
            Body::Cut { pgn, sa, da, cause } => Ok(Body::Cut {
                pgn: *pgn,
                sa: *sa,
                da: *da,
                cause: *cause,
            }),
        }
    }
}

impl Reading {
    /// An equal record of its own.
    pub fn copy(&self, alloc: Global) -> Result<Reading, AllocError>
        ensures { IfOk result (λ copy. copy ≡ self.now) }
    {
        Ok(Reading {
            bus: self.bus,
            number: self.number,
            version: self.version,
            micros: self.micros,
            body: self.body.deep_copy(alloc)?,
        })
    }
}
