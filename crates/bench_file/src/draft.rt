//! A plan in the making: what the lines so far say.

ghost use Rattle.std.specs.Prelude.{◌≡◌, ◌≤◌, ℕ, List, [], IfOk, length, MatchOption};
ghost use Rattle.std.specs.List.{list_any};
ghost use Rattle.std.specs.Str.{bytes_eq};
ghost use Rattle.bench_file.specs.LineMeaning.{LineMeaning, NamesBus, SetsNumber, meaning_of};
ghost use Rattle.bench_file.specs.PlanOf.{longest_file, meanings_of, IsPlan, IsFault};
ghost use Rattle.bench_file.specs.ReadingView.{bus_view, text_view, set_in, with_number, number_or_default, Drafts, Adds};

use crate::fault::LineRefused;
use crate::line::{NamedBus, ReadLine, meaning_of};
use crate::setting::default_of;
use crate::{FileName, Plan, PlannedBus, Setting};
use bench_model::Text;
use std::alloc::{AllocError, Global};

/// How many buses a bench may have.
const MOST_BUSES: usize = 16;
/// How many items the rings of a place may hold over all buses.
const MOST_ITEMS: u64 = 16_384;

/// The numbers that lines have set.
#[derive(Clone, Copy)]
pub(crate) struct Numbers {
    pub regions: Option<u32>,
    pub words: Option<u32>,
    pub ring: Option<u32>,
    pub sessions: Option<u32>,
    pub desk: Option<u32>,
    pub versions: Option<u32>,
}

/// What the lines so far say.
#[derive(Drop)]
pub(crate) struct Draft {
    pub buses: Vec<PlannedBus>,
    pub numbers: Numbers,
}

impl Numbers {
    /// No number is set.
    const NONE: Numbers = Numbers {
        regions: None,
        words: None,
        ring: None,
        sessions: None,
        desk: None,
        versions: None,
    };

    /// The number that a line has set.
    fn of(&self, setting: Setting) -> Option<u32>
        ensures { result ≡ set_in self.now setting }
    {
        match setting {
            Setting::Regions => self.regions,
            Setting::Words => self.words,
            Setting::Ring => self.ring,
            Setting::Sessions => self.sessions,
            Setting::Desk => self.desk,
            Setting::Versions => self.versions,
        }
    }

    /// Sets a number.
    fn set(&mut self, setting: Setting, number: u32)
        ensures { self.new ≡ with_number self.old setting number }
    {
        let number = Some(number);
        match setting {
            Setting::Regions => self.regions = number,
            Setting::Words => self.words = number,
            Setting::Ring => self.ring = number,
            Setting::Sessions => self.sessions = number,
            Setting::Desk => self.desk = number,
            Setting::Versions => self.versions = number,
        }
    }
}

/// The name of a file as a value of its own, or none.
fn own_name(alloc: Global, name: Option<&str>) -> Result<Option<FileName>, AllocError>
    ensures { IfOk result (λ own. own ≡ text_view name.entry) }
{
    match name {
        Some(name) => Ok(Some(FileName::of(alloc, name)?)),
        None => Ok(None),
    }
}

/// The bus of a line as a value of its own.
fn own_bus(alloc: Global, bus: NamedBus) -> Result<PlannedBus, AllocError>
    ensures { IfOk result (λ own. own ≡ bus_view bus.entry) }
{
    Ok(PlannedBus {
        name: Text::of(alloc, bus.name)?,
        kind: bus.kind,
        log: FileName::of(alloc, bus.log)?,
        database: own_name(alloc, bus.database)?,
    })
}

/// Whether one of the buses has this name.
fn has_name(buses: &[PlannedBus], name: &[u8]) -> bool
    ensures { result ≡ list_any (λ (bus : PlannedBus). bytes_eq bus.name name.now) buses.now }
{
    buses.iter().any(|bus| bus.name.bytes() == name)
}

impl Draft {
    /// The draft of no line.
    pub(crate) fn new(alloc: Global) -> Draft
        ensures { Drafts result [] }
    {
        Draft {
            buses: Vec::new(alloc),
            numbers: Numbers::NONE,
        }
    }

    /// Adds the bus of a line.
    fn add_bus(&mut self, alloc: Global, bus: NamedBus) -> Result<(), LineRefused>
        ensures { (lines : List LineMeaning) → Drafts self.old lines
            → Adds self.new lines (NamesBus (bus_view bus.entry)) result }
    {
        if self.buses.len() >= MOST_BUSES || has_name(&self.buses, bus.name) {
            return Err(LineRefused::Rule);
        }
        self.buses.push(own_bus(alloc, bus)?)?;
        Ok(())
    }

    /// Sets the number of a line.
    fn set(&mut self, setting: Setting, number: u32) -> Result<(), LineRefused>
        ensures { (lines : List LineMeaning) → Drafts self.old lines
            → Adds self.new lines (SetsNumber setting number) result }
    {
        if self.numbers.of(setting).is_some() {
            return Err(LineRefused::Rule);
        }
        self.numbers.set(setting, number);
        Ok(())
    }

    /// Adds what a line says.
    pub(crate) fn add(&mut self, alloc: Global, line: &[u8]) -> Result<(), LineRefused>
        ensures { (lines : List LineMeaning) → Drafts self.old lines
            → Adds self.new lines (meaning_of line.now) result }
    {
        match meaning_of(line) {
            Some(ReadLine::PassedOver) => Ok(()),
            Some(ReadLine::Bus { bus }) => self.add_bus(alloc, bus),
            Some(ReadLine::Number { setting, number }) => self.set(setting, number),
            None => Err(LineRefused::Rule),
        }
    }

    /// The number that a line has set, or its default.
    fn number(&self, setting: Setting) -> u32
        ensures { result ≡ number_or_default self.now.numbers setting }
    {
        match self.numbers.of(setting) {
            Some(number) => number,
            None => default_of(setting),
        }
    }

    /// The plan, where there is a bus and the rings don't hold too many items.
    pub(crate) fn plan(self) -> Option<Plan>
        ensures { (bytes : List ℕ) → length bytes ≤ longest_file → Drafts self (meanings_of bytes)
            → MatchOption result (IsFault bytes 0) (IsPlan bytes) }
    {
        let ring = self.number(Setting::Ring);
        let items = u64::from(ring).saturating_mul(self.buses.len() as u64);
        if self.buses.is_empty() || items > MOST_ITEMS {
            return None;
        }
        Some(Plan {
            regions: self.number(Setting::Regions),
            words: self.number(Setting::Words),
            ring,
            sessions: self.number(Setting::Sessions),
            desk: self.number(Setting::Desk),
            versions: self.number(Setting::Versions),
            buses: multiplex_tree::List::of(self.buses),
        })
    }
}
