// A file that is written from its front on.
ghost use Rattle.token_words.specs.Row.{row_words};
ghost use Rattle.row_bytes.specs.Output.{Fits, Extended};

use crate::put_row;
use token_words::Row;

// The buffer, and where what has been written ends.
#[derive(Drop)]
pub struct Output<'a> {
    pub bytes: &'a mut [u8],
    pub end: usize,
}

impl Output<'_> {
    pub fn append(&mut self, row: Row)
        requires { Fits self.old (row_words row) }
        ensures { Extended self.old self.new (row_words row) }
    {
        self.end = put_row(self.bytes, self.end, row);
    }
}
