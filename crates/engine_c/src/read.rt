// Read.
ghost use Rattle.std.specs.Prelude.{◌≡◌};
ghost use Rattle.grammar.specs.Read.{read_of};

use c_replies::ReadReply;

// Read: a text becomes a script file, in a buffer of exactly the longest file's bytes. A refused text leaves every byte as it was.
#[unsafe(no_mangle)]
pub extern "C" fn oolong_read(text: &[u8], file: &mut [u8]) -> ReadReply
    ensures text { text.now ≡ text.now }
    ensures number { result.number ≡ (read_of text.now file.old).number }
    ensures length { result.length ≡ (read_of text.now file.old).length }
    ensures place { result.place ≡ (read_of text.now file.old).place }
    ensures file { file.new ≡ (read_of text.now file.old).buffer }
{
    engine::oolong_read(text, file)
}
