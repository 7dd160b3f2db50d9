//! Judging the file of a database.

ghost use Rattle.std.specs.Prelude.{◌≡◌, ◌⊎◌, ◌≤◌, ℕ, List as AnyList, length, zip, IsOkAnd, IsErrOf};
ghost use Rattle.bench_model.specs.declared.database.Database.{Database as AnyDatabase};
ghost use Rattle.bench_model.specs.declared.database.Bus.{Bus as AnyBus};
ghost use Rattle.bench_model.specs.ValidBench.{most_buses};
ghost use Rattle.bench_loader.specs.declared.fault.DatabaseFault.{DatabaseFault as AnyFault};
ghost use Rattle.bench_loader.specs.declared.fault.JudgeRefused.TheVariants as refusals;
ghost use Rattle.bench_loader.specs.declared.fault.BenchRefused.TheVariants as refused_benches;
ghost use Rattle.bench_loader.specs.Judging.{Holds, IsRefused, AreBuses, IsFirstRefused};
ghost use Rattle.bench_loader.specs.JudgeView.{JudgesDbc, JudgesLdf, JudgesFile, JudgesBus, JudgesBench, refusal_of_bus};

use crate::{BenchRefused, DatabaseFault, JudgeRefused, one_judgement, one_judgement_of_a_file};
use bench_file::PlannedBus;
use bench_inputs::DatabaseFile;
use bench_model::{Bench, Bus, Database, Kind, Valid, check};
use dbc_grammar::{DbcFault, read_dbc};
use ldf_grammar::{LdfFault, read_ldf};
use multiplex_tree::List;
use std::alloc::Global;

/// The database of a bus that names none.
fn empty_database(alloc: Global) -> Result<Valid, JudgeRefused>
    ensures { JudgesFile Kind.Can DatabaseFile.Absent result }
{
    let database = Database {
        messages: List::of(Vec::new(alloc)),
    };
    match check(alloc, database) {
        Ok(valid) => Ok(valid),
        // It has no message that could break a rule.
        Err(_) => Err(JudgeRefused::Memory),
    }
}

/// The database of a DBC.
fn judge_dbc(alloc: Global, bytes: &[u8]) -> Result<Valid, JudgeRefused>
    ensures { JudgesDbc bytes.now result }
{
    match read_dbc(alloc, bytes) {
        Ok(valid) => Ok(valid),
        Err(DbcFault::Memory) => Err(JudgeRefused::Memory),
        Err(fault) => Err(JudgeRefused::Fault {
            fault: DatabaseFault::Dbc { fault },
        }),
    }
}

/// The database of an LDF.
fn judge_ldf(alloc: Global, bytes: &[u8]) -> Result<Valid, JudgeRefused>
    ensures { JudgesLdf bytes.now result }
{
    match read_ldf(alloc, bytes) {
        Ok(valid) => Ok(valid),
        Err(LdfFault::Memory) => Err(JudgeRefused::Memory),
        Err(fault) => Err(JudgeRefused::Fault {
            fault: DatabaseFault::Ldf { fault },
        }),
    }
}

/// The database of a file, by its kind of grammar.
fn judge_file(alloc: Global, kind: Kind, file: &DatabaseFile) -> Result<Valid, JudgeRefused>
    ensures { JudgesFile kind file.now result }
{
    match file {
        DatabaseFile::Absent => empty_database(alloc),
        DatabaseFile::TooLong => Err(JudgeRefused::Fault {
            fault: DatabaseFault::Long,
        }),
        DatabaseFile::Bytes { bytes } => match kind {
            Kind::Lin => judge_ldf(alloc, bytes.items()),
            Kind::Can | Kind::J1939 => judge_dbc(alloc, bytes.items()),
        },
    }
}

/// The database that the file of a bus of this kind holds.
pub fn judge_database(alloc: Global, kind: Kind, file: &DatabaseFile) -> Result<Valid, JudgeRefused>
    // What is answered is true of the file.
    ensures judges { JudgesFile kind file.now result }
    // The database that the file holds is answered, unless memory runs out.
    ensures every_database { (d : AnyDatabase) → Holds kind file.now d →
        IsOkAnd result (λ valid. valid.database ≡ d) ⊎ IsErrOf result refusals.Memory }
    // So is the fault for which it is refused.
    ensures every_fault { (fault : AnyFault) → IsRefused kind file.now fault →
        IsErrOf result (refusals.Fault fault) ⊎ IsErrOf result refusals.Memory }
{
    let judged = judge_file(alloc, kind, file);
    one_judgement_of_a_file();
    judged
}

/// The bus that a planned bus and its file make.
fn judge_bus(alloc: Global, bus: &PlannedBus, file: &DatabaseFile) -> Result<Bus, JudgeRefused>
    ensures { JudgesBus (bus.now, file.now) result }
{
    let database = judge_database(alloc, bus.kind, file)?.into_database();
    Ok(Bus {
        name: bus.name.copy(alloc)?,
        kind: bus.kind,
        database,
    })
}

/// A refusal of the bus at this place.
pub(crate) fn refusal_of_bus(bus: u32, refused: JudgeRefused) -> BenchRefused
    ensures { result ≡ refusal_of_bus bus refused }
{
    match refused {
        JudgeRefused::Fault { fault } => BenchRefused::Refused { bus, fault },
        JudgeRefused::Memory => BenchRefused::Memory,
    }
}

/// The buses of these plans and files, judged in order.
fn judge_buses(
    alloc: Global,
    buses: &[PlannedBus],
    files: &[DatabaseFile],
) -> Result<Bench, BenchRefused>
    requires files { length buses.now ≡ length files.now }
    requires few { length buses.now ≤ most_buses }
    ensures { JudgesBench (zip buses.now files.now) result }
{
    let mut judged = Vec::new(alloc);
    for (i, bus) in buses.iter().enumerate() {
        match judge_bus(alloc, bus, &files[i]) {
            Ok(bus) => judged.push(bus)?,
            Err(refused) => return Err(refusal_of_bus(i as u32, refused)),
        }
    }
    Ok(Bench {
        buses: List::of(judged),
    })
}

/// The bench of these buses and their files, or the first bus whose file is refused.
pub fn judge_bench(
    alloc: Global,
    buses: &[PlannedBus],
    files: &[DatabaseFile],
) -> Result<Bench, BenchRefused>
    requires files { length buses.now ≡ length files.now }
    requires few { length buses.now ≤ most_buses }
    // What is answered is true of the files.
    ensures judges { JudgesBench (zip buses.now files.now) result }
    // The bench that the files make is answered, unless memory runs out.
    ensures every_bench { (made : AnyList AnyBus) → AreBuses (zip buses.now files.now) made →
        IsOkAnd result (λ bench. bench.buses ≡ made) ⊎ IsErrOf result refused_benches.Memory }
    // So is the first refusal.
    ensures every_refusal { (bus : ℕ) (fault : AnyFault) → IsFirstRefused (zip buses.now files.now) (bus, fault) →
        IsErrOf result (refused_benches.Refused bus fault) ⊎ IsErrOf result refused_benches.Memory }
{
    let judged = judge_buses(alloc, buses, files);
    one_judgement();
    judged
}
