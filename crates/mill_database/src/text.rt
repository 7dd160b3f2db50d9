//! The generated text.

ghost use Rattle.std.specs.Prelude.{◌≡◌, ◌<◌, ◌++◌, IfOk, OnOk};
ghost use Rattle.mill_database.specs.GeneratedText.{message_count, message_text, generated_text};

use itoa::Buffer;
use mill_log::FIRST_ID;
use std::alloc::{AllocError, Global};

/// How many messages there are.
const MESSAGES: u32 = 64;

/// The lines of a message's signals.
const SIGNAL_LINES: &[u8] = b" SG_ S0 : 0|16@1+ (0.5,0) [0|0] \"\" Mill
 SG_ S1 : 16|16@1- (1,-40) [0|0] \"\" Mill
 SG_ S2 : 39|16@0+ (0.25,0) [0|0] \"\" Mill
 SG_ S3 : 55|16@0- (1,0) [0|0] \"\" Mill
";

/// Appends the text of message `j`.
#[tactic(auto, unfolding(crate::specs::GeneratedText::message_text, crate::specs::GeneratedText::signal_lines))]
fn push_message(text: &mut Vec<u8>, j: u32) -> Result<(), AllocError>
    requires { j < message_count }
    ensures { OnOk result (text.new.items ≡ text.old.items ++ message_text j) }
{
    let mut digits = Buffer::new();
    text.extend_from_slice(b"BO_ ")?;
    text.extend_from_slice(digits.format(FIRST_ID + j).as_bytes())?;
    text.extend_from_slice(b" M")?;
    text.extend_from_slice(digits.format(j).as_bytes())?;
    text.extend_from_slice(b": 8 Mill\n")?;
    text.extend_from_slice(SIGNAL_LINES)?;
    Ok(())
}

/// The generated text.
pub fn generated_text(alloc: Global) -> Result<Vec<u8>, AllocError>
    ensures { IfOk result (λ text. text.items ≡ generated_text) }
{
    let mut text = Vec::new(alloc);
    for j in 0..MESSAGES {
        push_message(&mut text, j)?;
    }
    Ok(text)
}
