//! The records of a bus, line by line.

ghost use Rattle.std.specs.Prelude.{
  ◌≡◌,
  ◌<◌,
  ◌⊎◌,
  ◌+◌,
  ◌^◌,
  ◌∷◌,
  [],
  ◌++◌,
  List,
  length,
  All,
  IfOk,
  OnOk,
  OnErr,
};
ghost use Rattle.bench_model.specs.Check.{IsValid};
ghost use Rattle.bench_model.specs.Meaning.{bench_meaning};
ghost use Rattle.candump_log.specs.declared.log_line.LogLine.{LogLine};
ghost use Rattle.decoded_list.specs.Records.{Meaning, stamp_of, heard_at, brought_on, record_of, own_record, records_at};
ghost use Rattle.decoded_list.specs.RecordsView.{one_or_none, record_list, IsFrame, BeginsMessage};
ghost use Rattle.decoded_list.specs.Asking.{IsSaidOf, IsSaidOfMessage};
ghost use Rattle.decoded_list.specs.Listening.{Listens, HasTaken};

use crate::asking::{said_of, said_of_message};
use crate::bodies::{own_body, transport_body};
use bench_model::{Bench, Body, Kind, Plain, Reading};
use candump_log::LogLine;
use j1939_tp::{Listener, TpOut};
use std::alloc::{AllocError, Global};

/// The records of a line: its own, and that of the message of several packets which its frame completes or breaks off.
#[derive(Debug, Drop)]
pub struct Records {
    pub own: Reading,
    pub transported: Option<Reading>,
}

/// Decodes the lines of a bus one after another: it keeps the messages of several packets that are under way, and the
/// number of the next record.
#[derive(Drop)]
pub struct BusDecoder {
    alloc: Global,
    bus: u32,
    kind: Kind,
    listener: Listener,
    next: u64,
}

/// Microseconds since the log's epoch, 0 for a bad line.
pub fn stamp_of(line: &LogLine) -> u64
    ensures { result ≡ stamp_of line.now }
{
    match line {
        LogLine::Frame { micros, .. }
        | LogLine::Remote { micros, .. }
        | LogLine::Error { micros, .. } => *micros,
        LogLine::Bad => 0,
    }
}

/// What the transport protocol brings at a line: the listener of a J1939 bus hears its frame of data, where that has a
/// 29-bit identifier.
pub fn listen(kind: Kind, listener: &mut Listener, line: &LogLine) -> Result<TpOut, AllocError>
    ensures brought { (before : List LogLine) → Listens kind listener.old before
        → IfOk result (λ out. out ≡ brought_on kind before line.now) }
    ensures heard { (before : List LogLine) → Listens kind listener.old before
        → OnOk result (Listens kind listener.new (before ++ line.now ∷ [])) }
    ensures unchanged { OnErr result (listener.new ≡ listener.old) }
    ensures elsewhere { (kind ≡ Kind.J1939) ⊎ (listener.new ≡ listener.old) }
    ensures unheard { heard_at line.now ≡ [] → listener.new ≡ listener.old }
    ensures quiet { IsFrame line.now ⊎ (result ≡ Ok TpOut.Nothing) }
    ensures memory { OnErr result (BeginsMessage kind line.now) }
{
    match line {
        LogLine::Frame {
            micros,
            key,
            payload,
        } if kind == Kind::J1939 && key.extended => {
            Ok(listener.step(*micros, key.id, payload.bytes())?)
        }
        LogLine::Frame { .. } | LogLine::Remote { .. } | LogLine::Error { .. } | LogLine::Bad => {
            Ok(TpOut::Nothing)
        }
    }
}

impl BusDecoder {
    /// The decoder of the bus at this place of a bench, which has taken no line.
    pub fn new(alloc: Global, bus: u32, kind: Kind) -> BusDecoder
        ensures taken { HasTaken result [] }
        ensures bus { (result.bus ≡ bus) × (result.kind ≡ kind) × (result.next ≡ 0) }
    {
        BusDecoder {
            alloc,
            bus,
            kind,
            listener: Listener::new(alloc),
            next: 0,
        }
    }

    /// The number of the next record.
    pub fn next_number(&self) -> u64
        ensures { result ≡ self.now.next }
    {
        self.next
    }

    /// The records of the next line, decoded under this version of the databases. Out of memory comes at frames of data
    /// alone; the line has then been heard or not, and no record has been numbered.
    pub fn step(
        &mut self,
        bench: &Bench,
        version: u32,
        line: &LogLine,
    ) -> Result<Records, AllocError>
        requires bus { self.old.bus < length bench.now.buses }
        requires valid { All (λ b. IsValid b.database) bench.now.buses }
        requires room { self.old.next + 2 < 2 ^ 64 }

        // Whatever lines were taken before, these are the records of the next one, which is taken, too.
        ensures records { (before : List LogLine) → HasTaken self.old before
            → IfOk result (λ records. record_list records ≡ records_at (bench_meaning bench.now self.old.bus) self.old.kind
            (record { bus = self.old.bus; version = version }) before self.old.next line.now) }
        ensures taken { (before : List LogLine) → HasTaken self.old before
            → OnOk result (HasTaken self.new (before ++ line.now ∷ [])) }
        ensures next { IfOk result (λ records. self.new.next ≡ self.old.next + length (record_list records)) }

        ensures memory { (before : List LogLine) → HasTaken self.old before
            → OnErr result (HasTaken self.new before ⊎ HasTaken self.new (before ++ line.now ∷ [])) }
        ensures unnumbered { OnErr result (self.new.next ≡ self.old.next) }
        ensures frame { OnErr result (IsFrame line.now) }
        ensures same { (self.new.bus ≡ self.old.bus) × (self.new.kind ≡ self.old.kind) }
        // Only a J1939 bus has messages of several packets, and only frames with a 29-bit identifier change them.
        ensures elsewhere { (self.old.kind ≡ Kind.J1939) ⊎ (self.new.listener ≡ self.old.listener) }
        ensures unheard { heard_at line.now ≡ [] → self.new.listener ≡ self.old.listener }
    {
        let bus = self.bus;
        let said = said_of(self.alloc, bench, bus, line)?;
        let brought = self.hear(line)?;
        let whole = said_of_message(self.alloc, bench, bus, &brought)?;
        self.records(version, line, said, brought, whole)
    }

    /// What the transport protocol brings at the next line, which is taken. Then its records are made by `records`.
    pub fn hear(&mut self, line: &LogLine) -> Result<TpOut, AllocError>
        ensures brought { (before : List LogLine) → HasTaken self.old before
            → IfOk result (λ out. out ≡ brought_on self.old.kind before line.now) }
        ensures taken { (before : List LogLine) → HasTaken self.old before
            → OnOk result (HasTaken self.new (before ++ line.now ∷ [])) }
        ensures unchanged { OnErr result (self.new ≡ self.old) }
        ensures memory { OnErr result (BeginsMessage self.old.kind line.now) }
        ensures quiet { IsFrame line.now ⊎ (result ≡ Ok TpOut.Nothing) }
        ensures same { self.new ≡ record self.old { listener = self.new.listener } }
        ensures elsewhere { (self.old.kind ≡ Kind.J1939) ⊎ (self.new ≡ self.old) }
        ensures unheard { heard_at line.now ≡ [] → self.new ≡ self.old }
    {
        listen(self.kind, &mut self.listener, line)
    }

    /// The records of a line, where `said` is what the databases say to it, `brought` what the transport protocol
    /// brings at it, and `whole` what the databases say to that. They may be asked in any way: of a bench, or of words
    /// that encode one. Out of memory comes at frames of data alone, and no record has been numbered then.
    pub fn records(
        &mut self,
        version: u32,
        line: &LogLine,
        said: Option<Plain>,
        brought: TpOut,
        whole: Option<Plain>,
    ) -> Result<Records, AllocError>
        requires room { self.old.next + 2 < 2 ^ 64 }
        ensures records { (meaning : Meaning) (before : List LogLine) → IsSaidOf meaning line.now said
            → brought ≡ brought_on self.old.kind before line.now → IsSaidOfMessage meaning brought whole
            → IfOk result (λ records. record_list records ≡ records_at meaning self.old.kind
            (record { bus = self.old.bus; version = version }) before self.old.next line.now) }
        ensures next { IfOk result (λ records. self.new.next ≡ self.old.next + length (record_list records)) }
        ensures same { self.new ≡ record self.old { next = self.new.next } }
        ensures unnumbered { OnErr result (self.new ≡ self.old) }
        ensures frame { OnErr result (IsFrame line.now) }
    {
        let body = own_body(self.alloc, line, said)?;
        let own = self.reading(version, line, body);
        let transported = self.transport_record(version, line, brought, whole);
        Ok(Records { own, transported })
    }

    /// Counts a line's own record, which is not made, and gives the record of what the transport protocol brought at the
    /// line, where `brought` is that and `whole` what the databases say to it. So a caller may print the own record
    /// without making it.
    pub fn transport_record(
        &mut self,
        version: u32,
        line: &LogLine,
        brought: TpOut,
        whole: Option<Plain>,
    ) -> Option<Reading>
        requires room { self.old.next + 2 < 2 ^ 64 }
        ensures records { (meaning : Meaning) (before : List LogLine) → brought ≡ brought_on self.old.kind before line.now
            → IsSaidOfMessage meaning brought whole
            → own_record meaning (record { bus = self.old.bus; version = version }) self.old.next line.now
            ∷ one_or_none result ≡ records_at meaning self.old.kind
            (record { bus = self.old.bus; version = version }) before self.old.next line.now }
        ensures next { self.new.next ≡ self.old.next + (1 + length (one_or_none result)) }
        ensures same { self.new ≡ record self.old { next = self.new.next } }
    {
        self.next += 1;
        let Some(body) = transport_body(self.alloc, brought, whole) else {
            return None;
        };
        let reading = self.reading(version, line, body);
        self.next += 1;
        Some(reading)
    }

    /// The next record of a line, which is not counted yet.
    fn reading(&self, version: u32, line: &LogLine, body: Body) -> Reading
        ensures { result ≡ record_of (record { bus = self.now.bus; version = version }) (stamp_of line.now)
            (self.now.next, body) }
    {
        Reading {
            bus: self.bus,
            number: self.next,
            version,
            micros: stamp_of(line),
            body,
        }
    }
}
