//! The check of one file.

ghost use Rattle.std.specs.Prelude.{◌≡◌};
ghost use Rattle.bench_inputs.specs.Asking.{library_state};
ghost use Rattle.bench_loader.specs.Checking.{kind_of_name, ChecksFile};

use crate::{DatabaseFault, JudgeRefused, judge_database};
use bench_inputs::{FileRefused, read_database};
use bench_model::{Kind, Valid};
use port_io::Library;
use std::alloc::Global;
use thiserror::Error;
use tool_words::is_ldf_name;

/// Why a file that is checked gives no database.
#[derive(Debug, Drop, Error)]
pub enum CheckRefused {
    #[error("{fault}")]
    Fault { fault: DatabaseFault },
    #[error("the file could not be opened")]
    Open,
    #[error("the file could not be read")]
    Read,
    #[error("out of memory")]
    Memory,
}

impl From<FileRefused> for CheckRefused {
    ghost use Rattle.bench_loader.specs.CheckRefusals.{of_file};

    ghost from_gives = { λ refused given. given ≡ of_file refused };

    fn from(refused: FileRefused) -> CheckRefused {
        match refused {
            FileRefused::Open => CheckRefused::Open,
            FileRefused::Read => CheckRefused::Read,
            FileRefused::Memory => CheckRefused::Memory,
        }
    }
}

impl From<JudgeRefused> for CheckRefused {
    ghost use Rattle.bench_loader.specs.CheckRefusals.{of_judge};

    ghost from_gives = { λ refused given. given ≡ of_judge refused };

    fn from(refused: JudgeRefused) -> CheckRefused {
        match refused {
            JudgeRefused::Fault { fault } => CheckRefused::Fault { fault },
            JudgeRefused::Memory => CheckRefused::Memory,
        }
    }
}

/// The kind of bus whose databases have names like this one.
fn kind_of_name(name: &str) -> Kind
    ensures { result ≡ kind_of_name name.now }
{
    if is_ldf_name(name) {
        Kind::Lin
    } else {
        Kind::Can
    }
}

/// Opens and reads the file of this name, and judges it: as an LDF where the name ends in `.ldf`, else as a DBC.
pub fn check_file<B: Library>(
    alloc: Global,
    library: &mut B,
    name: &str,
) -> Result<Valid, CheckRefused>
    ensures { ChecksFile
        (library_state (B.files library.old) (B.open_faults library.old) (B.more_faults library.old) (B.strays library.old))
        name.now result
        (library_state (B.files library.new) (B.open_faults library.new) (B.more_faults library.new) (B.strays library.new)) }
{
    let file = read_database(alloc, library, name)?;
    let valid = judge_database(alloc, kind_of_name(name), &file)?;
    Ok(valid)
}
