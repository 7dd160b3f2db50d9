//! Files judged and checked, and the words of every fault.

use bench_model::Database;
use port_io::MemFile;
use std::alloc::{AllocError, Global};

mod checking;
mod commands;
mod fault_text;
mod judging;

const ENGINE: &[u8] =
    b"VERSION \"\"\nBO_ 256 Engine: 8 ECU\n SG_ Speed : 0|16@1+ (0.25,0) [0|16383.75] \"rpm\" X\n";

const CRUISE: &[u8] = b"BO_ 2566844926 CCVS: 8 ECU\n SG_ Speed : 8|16@1+ (1,0) [0|0] \"km/h\" X\n";

const STATUS: &[u8] = b"LIN_description_file;Signals{T:8,0,S;}Frames{Status:1,N,1{T,0;}}";

/// A message without a sender: its statement is not whole.
const SENDERLESS: &[u8] = b"VERSION \"\"\nBO_ 256 Engine: 8";

/// Appends the names of the messages, each behind a blank.
fn append_names(out: &mut Vec<u8>, database: &Database) -> Result<(), AllocError> {
    for message in database.messages.items() {
        out.push(b' ')?;
        out.extend_from_slice(message.name.bytes())?;
    }
    Ok(())
}

/// A file in memory, which is read to its end by one call where it has at most 4,096 bytes.
fn file_named(alloc: Global, name: &str, content: &[u8]) -> Result<MemFile, AllocError> {
    Ok(MemFile {
        name: String::from_str(alloc, name)?,
        content: Vec::from_slice(alloc, content)?,
        step: 4_096,
        fails: Vec::new(alloc),
    })
}
