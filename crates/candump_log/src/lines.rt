//! The lines of a log, read from any source.
ghost use Rattle.std.specs.Prelude.{◌≡◌, ◌≤◌, ◌^◌, ◌↔◌, true, false, length, IsSome, IfSome, IfOk, IsOkAnd, IfErr};
ghost use Rattle.candump_log.specs.Line.{KeepsLimits};
ghost use Rattle.candump_log.specs.LinesState.{source_state, fresh, log_of, log_limit};
ghost use Rattle.candump_log.specs.NextLine.{NextLine, NextOn, IsPrefix, IsAtEnd, IsAtLimit};

use crate::held::Held;
use crate::laws::one_line;
use crate::log_line::LogLine;
use crate::place::{LinesRefused, Place, Routed};
use crate::steps::{fetch, is_ready, let_go, take_last, take_whole};
use bench_model::Text;
use port_io::Source;
use std::alloc::Global;
use std::marker::Model;

/// A reader of the lines of a log. It keeps one buffer, made in `new`, however long the log and its lines.
#[derive(Drop)]
pub struct Lines<S: Source> {
    source: S,
    held: Held,
    place: Place,
    ended: bool,
    failed: bool,
}

/// The source of a reader for which there was no memory, as it was.
#[derive(Drop)]
pub struct NoLines<S> {
    pub source: S,
}

impl<S: Source> Model for Lines<S> {
    ghost use Rattle.std.specs.Prelude.{◌≡◌};
    ghost use Rattle.candump_log.specs.LinesState.{LinesState, source_state};
    ghost use Rattle.candump_log.specs.LinesView.{Keeps, shown};

    ghost Value = { LinesState };

    ghost view = { λ l. shown
        (source_state (S.left l.source) (S.taken l.source) (S.read_faults l.source) (S.ended l.source))
        (S.other l.source) l.held l.place l.failed };

    ghost invariant = { λ l. Keeps
        (source_state (S.left l.source) (S.taken l.source) (S.read_faults l.source) (S.ended l.source)) l.held l.place
        × (l.ended ≡ S.ended l.source) };
}

impl<S: Source> Lines<S> {
    /// A reader of the bytes that the source has left, as one log.
    pub fn new(alloc: Global, source: S) -> Result<Lines<S>, NoLines<S>>
        requires { S.ended source ≡ false }
        ensures lines { IfOk result (λ lines. lines ≡ fresh
            (source_state (S.left source) (S.taken source) (S.read_faults source) (S.ended source)) (S.other source)) }
        ensures log { IfOk result (λ lines. log_of lines ≡ S.left source) }
        ensures refused { IfErr result (λ no. no.source ≡ source) }
    {
        let Ok(held) = Held::new(alloc) else {
            return Err(NoLines { source });
        };
        Ok(Lines {
            source,
            held,
            place: Place {
                taken: 0,
                start: 0,
                given: 0,
                long: false,
            },
            ended: false,
            failed: false,
        })
    }

    /// The next line with the place of its interface among the names, or none where the log has ended and all
    /// its lines were given.
    pub fn next_on(&mut self, names: &[Text]) -> Result<Option<Routed>, LinesRefused>
        requires unrefused { self.old.failed ≡ false }
        requires names { length names.now ≤ 2 ^ 32 }
        ensures { NextOn names.now self.old result self.new }
    {
        'lines: loop {
            if let Some(routed) = take_whole(&mut self.held, &mut self.place, names) {
                return Ok(Some(routed));
            }
            if self.ended {
                return Ok(take_last(&mut self.held, &mut self.place, names));
            }
            let_go(&mut self.held, &mut self.place);
            match fetch(&mut self.source, &mut self.held, &mut self.place) {
                Ok(ended) => self.ended = ended,
                Err(why) => {
                    self.failed = true;
                    return Err(why);
                }
            }
        }
    }

    /// The next line, or none where the log has ended and all its lines were given.
    pub fn next(&mut self) -> Result<Option<LogLine>, LinesRefused>
        requires { self.old.failed ≡ false }

        ensures answers { NextLine self.old result self.new }
        ensures none { (result ≡ Ok None) ↔ IsAtEnd self.old self.new }
        ensures too_long { (result ≡ Err LinesRefused.TooLong) ↔ IsAtLimit self.old self.new }
        ensures ready { self.old.ready ≡ true → IsOkAnd result (λ line. IsSome line)
            × (self.new.source ≡ self.old.source) }
        ensures limits { IfOk result (λ line. IfSome line KeepsLimits) }
    {
        one_line();
        match self.next_on(&[])? {
            Some(routed) => Ok(Some(routed.line)),
            None => Ok(None),
        }
    }

    /// Whether `next` would give a line without asking the source.
    pub fn ready(&self) -> bool
        requires { self.now.failed ≡ false }
        ensures { result ≡ self.now.ready }
    {
        is_ready(self.ended, self.held.bytes(), self.place.long)
    }

    /// Whether a call was refused.
    pub fn failed(&self) -> bool
        ensures { result ≡ self.now.failed }
    {
        self.failed
    }

    /// How many bytes were taken from the source.
    pub fn taken(&self) -> u64
        ensures value { result ≡ self.now.taken }
        ensures limit { result ≤ log_limit }
        ensures given { self.now.given ≤ result }
        ensures prefix { IsPrefix self.now.texts (log_of self.now) }
    {
        self.place.taken
    }

    /// The source, as it was left.
    pub fn into_source(self) -> S
        ensures source { source_state (S.left result) (S.taken result) (S.read_faults result) (S.ended result)
            ≡ self.source }
        ensures other { S.other result ≡ self.other }
    {
        let Lines {
            source,
            held: _,
            place: _,
            ended: _,
            failed: _,
        } = self;
        source
    }
}
