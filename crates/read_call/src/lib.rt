// Read's call: a text read into a script file, and the reply.
#![tactic(auto)]

ghost use Rattle.std.specs.Prelude.{◌≡◌};
ghost use Rattle.grammar.specs.Read.{read_of};

use c_replies::{ReadReply, read_reply};
use reader::read_text;

// Read: a text becomes a script file, in a buffer of exactly the longest file's bytes. A refused text leaves every byte as it was.
pub fn read(text: &[u8], file: &mut [u8]) -> ReadReply
    ensures text { text.now ≡ text.now }
    ensures number { result.number ≡ (read_of text.now file.old).number }
    ensures length { result.length ≡ (read_of text.now file.old).length }
    ensures place { result.place ≡ (read_of text.now file.old).place }
    ensures file { file.new ≡ (read_of text.now file.old).buffer }
{
    match read_text(text, file) {
        Ok(length) => read_reply(0, length, 0),
        Err(refusal) => read_reply(refusal.error.number(), 0, refusal.place),
    }
}
