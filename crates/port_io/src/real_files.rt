//! Files of the system, by their paths. What they hold is not known.
ghost use Rattle.std.specs.Prelude.{◌≡◌, false, None, is_some, refl};
ghost use Rattle.std.specs.Io.{ReadsAtMost};
ghost use Rattle.std.specs.Io.KnownBytes.{ReadConsumes};
ghost use Rattle.port_io.specs.Causes.{HasCause};
ghost use Rattle.port_io.specs.OtherSide.{no_other_side};

use crate::counts::raise;
use crate::{Failed, Library, Source};
use std::fs;
use std::fs::File;
use std::io::Read;

/// Reads from a reader of the system, and counts where that fails.
fn read_some<R: Read>(reader: &mut R, buf: &mut [u8], faults: &mut u64) -> Result<usize, Failed>
    ensures bound { ReadsAtMost result buf.new }
    ensures bytes { ReadConsumes (R.remaining reader.old) (R.remaining reader.new) result buf.new }
    ensures cause { HasCause faults.old faults.new result }
{
    let Ok(count) = reader.read(buf) else {
        raise(faults);
        return Err(Failed);
    };
    Ok(count)
}

/// An open file, read from its start.
#[derive(Drop)]
pub struct FileSource {
    file: File,
    faults: u64,
    ended: bool,
}

impl Source for FileSource {
    ghost left = { λ _. None };

    ghost taken = { λ _. None };

    ghost read_faults = { λ s. s.faults };

    ghost ended = { λ s. s.ended };

    ghost other = { λ _. no_other_side };

    ghost known_alike = { λ _. refl };

    fn read(&mut self, buf: &mut [u8]) -> Result<usize, Failed> {
        let count = read_some(&mut self.file, buf, &mut self.faults)?;
        self.ended = self.ended || count == 0;
        Ok(count)
    }
}

/// The files of the system.
#[derive(Drop)]
pub struct FileLibrary {
    rt: HostRuntime,
    begun: Option<File>,
    open_faults: u64,
    more_faults: u64,
}

impl FileLibrary {
    /// The files of the system, none of them begun.
    pub fn new(rt: HostRuntime) -> FileLibrary
        ensures begun { ⟦<FileLibrary as Library>⟧.begun result ≡ false }
        ensures open_faults { ⟦<FileLibrary as Library>⟧.open_faults result ≡ 0 }
        ensures more_faults { ⟦<FileLibrary as Library>⟧.more_faults result ≡ 0 }
    {
        FileLibrary {
            rt,
            begun: None,
            open_faults: 0,
            more_faults: 0,
        }
    }
}

/// Opens the file at that path, or raises the count of faults.
fn open_path(rt: &HostRuntime, path: &str, faults: &mut u64) -> Result<File, Failed>
    ensures { HasCause faults.old faults.new result }
{
    let Ok(file) = fs::open(rt, path) else {
        raise(faults);
        return Err(Failed);
    };
    Ok(file)
}

impl Library for FileLibrary {
    type Log = FileSource;

    ghost files = { λ _. None };

    ghost left = { λ _. None };

    ghost begun = { λ l. is_some l.begun };

    ghost open_faults = { λ l. l.open_faults };

    ghost more_faults = { λ l. l.more_faults };

    ghost strays = { λ _. 0 };

    ghost unknown_strays = { λ _ _. refl };

    fn begin(&mut self, name: &str) -> Result<(), Failed> {
        self.begun = None;
        self.begun = Some(open_path(&self.rt, name, &mut self.open_faults)?);
        Ok(())
    }

    fn more(&mut self, buf: &mut [u8]) -> Result<usize, Failed> {
        let file = self.begun.as_mut().unwrap();
        read_some(file, buf, &mut self.more_faults)
    }

    fn log(&mut self, name: &str) -> Result<FileSource, Failed> {
        let file = open_path(&self.rt, name, &mut self.open_faults)?;
        Ok(FileSource {
            file,
            faults: 0,
            ended: false,
        })
    }
}
