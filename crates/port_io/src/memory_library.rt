//! A library in memory.
ghost use Rattle.std.specs.Prelude.{◌≡◌, ◌<◌, ◌≤◌, ◌↔◌, length, Some, None, is_some, is_ok, IsNone, IfSome, IsTrue, IfOk, OnOk};
ghost use Rattle.std.specs.Option.{option_copied};
ghost use Rattle.std.specs.Io.{ReadsAtMost};
ghost use Rattle.port_io.specs.Causes.{HasCause, raised};
ghost use Rattle.port_io.specs.Source.{ReadsFrom, SaysEnd};
ghost use Rattle.port_io.specs.Library.{OpensFile, IsFreshLog, strays_after};

use crate::counts::raise;
use crate::memory_calls::{copy_some, is_failing};
use crate::memory_log::MemLog;
use crate::{Failed, Library};

/// A file in memory: at most `step` bytes of it are given a call, and a log over it fails at the
/// reads whose numbers, from 0, are in `fails`.
#[derive(Drop)]
pub struct MemFile {
    pub name: String,
    pub content: Vec<u8>,
    pub step: usize,
    pub fails: Vec<u64>,
    pub ghost steps: { 1 ≤ step },
}

impl MemFile {
    ghost use Rattle.port_io.specs.MemFile.{file_named};

    /// The first file of that name.
    fn find<'a>(files: &'a [MemFile], name: &str) -> Option<&'a MemFile>
        ensures { option_copied result ≡ file_named files.now name.now }
    {
        files.iter().find(|file| file.name.as_str() == name)
    }
}

/// A library of files in memory.
#[derive(Drop)]
pub struct MemLibrary<'a> {
    files: &'a [MemFile],
    fails: Vec<u64>,
    calls: u64,
    open_faults: u64,
    more_faults: u64,
    strays: u64,
    begun: bool,
    rest: &'a [u8],
    step: usize,
    ghost steps: { 1 ≤ step },
}

impl<'a> MemLibrary<'a> {
    ghost use Rattle.port_io.specs.MemFile.{file_named};
    ghost use Rattle.port_io.specs.MemLibrary.{state_of};
    ghost use Rattle.port_io.specs.MemoryLibrary.{unopened, after_open, CannotOpen};

    /// A library of these files. It fails at the calls of `begin`, `more` and `log`, counted
    /// together, whose numbers, from 0, are in `fails`.
    pub fn new(files: &'a [MemFile], fails: Vec<u64>) -> MemLibrary<'a>
        ensures { state_of result ≡ unopened files.now fails.items }
    {
        MemLibrary {
            files,
            fails,
            calls: 0,
            open_faults: 0,
            more_faults: 0,
            strays: 0,
            begun: false,
            rest: &[],
            step: 1,
        }
    }

    /// One call that opens the file of that name, where it is there and this call does not fail.
    fn open_file(&mut self, name: &str) -> Option<&'a MemFile>
        ensures fails { IsNone result ↔ CannotOpen (state_of self.old) name.now }
        ensures file { IfSome result (λ file.
            file_named (state_of self.old).files name.now ≡ Some file.now) }
        ensures after { state_of self.new
            ≡ after_open (state_of self.old) name.now (is_some result) }
    {
        let failing = is_failing(&mut self.calls, &self.fails);
        match MemFile::find(self.files, name) {
            Some(file) if !failing => Some(file),
            Some(_) => {
                raise(&mut self.open_faults);
                None
            }
            None => {
                raise(&mut self.open_faults);
                raise(&mut self.strays);
                None
            }
        }
    }
}

impl<'a> Library for MemLibrary<'a> {
    type Log = MemLog<'a>;

    ghost use Rattle.port_io.specs.MemLibrary.{state_of};
    ghost use Rattle.std.proofs.Common.{sym};
    ghost use Rattle.std.proofs.lemmas.Option.{none-some};
    ghost use Rattle.port_io.specs.MemLog.{reader_of};
    ghost use Rattle.port_io.specs.MemoryReader.{bytes_left, bytes_taken};
    ghost use Rattle.port_io.specs.MemoryLibrary.{known_files, BeginsMemory, GivesMemory, OpensMemory};

    ghost files = { λ l. known_files (state_of l) };

    ghost left = { λ l. Some (state_of l).rest };

    ghost begun = { λ l. (state_of l).begun };

    ghost open_faults = { λ l. (state_of l).open_faults };

    ghost more_faults = { λ l. (state_of l).more_faults };

    ghost strays = { λ l. (state_of l).strays };

    ghost unknown_strays = { λ l unknown. absurd (none-some _ (sym unknown)) };

    fn begin(&mut self, name: &str) -> Result<(), Failed>
        ensures opened { OnOk result
            (OpensFile (known_files (state_of self.old)) name.now (Some (state_of self.new).rest)) }
        ensures begun { (state_of self.new).begun ≡ is_ok result }
        ensures files { known_files (state_of self.new) ≡ known_files (state_of self.old) }
        ensures cause { HasCause (state_of self.old).open_faults (state_of self.new).open_faults
            result }
        ensures more_faults { (state_of self.new).more_faults ≡ (state_of self.old).more_faults }
        ensures strays { (state_of self.new).strays
            ≡ strays_after (known_files (state_of self.old)) name.now (state_of self.old).strays }
        ensures exact { BeginsMemory (state_of self.old) (state_of self.new) name.now result }
    {
        self.begun = false;
        let Some(file) = self.open_file(name) else {
            return Err(Failed);
        };
        self.begun = true;
        self.rest = &file.content;
        self.step = file.step;
        Ok(())
    }

    fn more(&mut self, buf: &mut [u8]) -> Result<usize, Failed>
        requires begun { IsTrue (state_of self.old).begun }
        requires room { 0 < length buf.old }

        ensures bound { ReadsAtMost result buf.new }
        ensures left { ReadsFrom (Some (state_of self.old).rest) (Some (state_of self.new).rest)
            result buf.new }
        ensures end { SaysEnd (Some (state_of self.old).rest) result }
        ensures begun { (state_of self.new).begun ≡ (state_of self.old).begun }
        ensures files { known_files (state_of self.new) ≡ known_files (state_of self.old) }
        ensures cause { HasCause (state_of self.old).more_faults (state_of self.new).more_faults
            result }
        ensures open_faults { (state_of self.new).open_faults ≡ (state_of self.old).open_faults }
        ensures strays { (state_of self.new).strays ≡ (state_of self.old).strays }
        ensures exact { GivesMemory (state_of self.old) (state_of self.new) result buf.new }
    {
        if is_failing(&mut self.calls, &self.fails) {
            raise(&mut self.more_faults);
            return Err(Failed);
        }
        let count = copy_some(self.rest, self.step, buf);
        self.rest = &self.rest[count..];
        Ok(count)
    }

    fn log(&mut self, name: &str) -> Result<MemLog<'a>, Failed>
        ensures opened { IfOk result (λ log. IsFreshLog (known_files (state_of self.old)) name.now
            (bytes_left (reader_of log)) (bytes_taken (reader_of log))
            (reader_of log).faults (reader_of log).ended) }
        ensures left { Some (state_of self.new).rest ≡ Some (state_of self.old).rest }
        ensures begun { (state_of self.new).begun ≡ (state_of self.old).begun }
        ensures files { known_files (state_of self.new) ≡ known_files (state_of self.old) }
        ensures cause { HasCause (state_of self.old).open_faults (state_of self.new).open_faults
            result }
        ensures more_faults { (state_of self.new).more_faults ≡ (state_of self.old).more_faults }
        ensures strays { (state_of self.new).strays
            ≡ strays_after (known_files (state_of self.old)) name.now (state_of self.old).strays }
        ensures exact { OpensMemory reader_of (state_of self.old) (state_of self.new)
            name.now result }
    {
        match self.open_file(name) {
            Some(file) => Ok(MemLog::new(file)),
            None => Err(Failed),
        }
    }
}
