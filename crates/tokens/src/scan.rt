// The next token.
ghost use Rattle.std.specs.Prelude.{◌≡◌, ◌+◌, ◌≤◌, ◌<◌, length, get_or, drop};
ghost use Rattle.grammar.specs.Tokens.{blank_test};
ghost use Rattle.tokens.specs.Kinds.{byte_kind, kind_test};
ghost use Rattle.tokens.specs.Next.{NextIs, Skipped};
ghost use Rattle.tokens.specs.Runs.{byte_run};

use crate::{BLANK, DIGITS, NAME, Next, Text};
use word_kinds::word_kind;

impl Text<'_> {
    // The kind of the token that byte `at` begins.
    pub(crate) fn kind_at(&self, at: usize) -> u8
        requires { at < length self.now.bytes.now }
        ensures { result ≡ byte_kind (get_or self.now.bytes.now at 0) }
    {
        self.kinds[self.bytes[at] as usize]
    }

    fn is_blank(&self, at: usize) -> bool
        requires { at < length self.now.bytes.now }
        ensures { result ≡ blank_test (get_or self.now.bytes.now at 0) }
    {
        self.kind_at(at) == BLANK
    }

    // It and `run_end` stop for different reasons, and one function for both would take a closure with its law: two loops of five lines are plainer.
    // The first byte from `at` on that is no blank, or the text's end.
    fn skip_last(&self, at: usize) -> usize
        requires { at ≤ length self.now.bytes.now }
        ensures { Skipped self.now.bytes.now at result }
    {
        for i in at..self.bytes.len() {
            if !self.is_blank(i) {
                return i;
            }
        }
        self.bytes.len()
    }

    // The same, four bytes a turn while so many are left: with one byte a turn the judge takes a fifth longer over a whole text, and has taken twice as long in
    // some builds.
    fn skip_blanks(&self, at: usize) -> usize
        requires { at ≤ length self.now.bytes.now }
        ensures { Skipped self.now.bytes.now at result }
    {
        let mut i = at;
        while 4 <= self.bytes.len() - i {
            if !self.is_blank(i) {
                return i;
            }
            if !self.is_blank(i + 1) {
                return i + 1;
            }
            if !self.is_blank(i + 2) {
                return i + 2;
            }
            if !self.is_blank(i + 3) {
                return i + 3;
            }
            i += 4;
        }
        self.skip_last(i)
    }

    // Where the bytes from `at` on end that are of kind `least` or a higher one.
    fn run_end(&self, at: usize, least: u8) -> usize
        requires { at ≤ length self.now.bytes.now }
        ensures { result ≡ at + length (byte_run (kind_test least) (drop at self.now.bytes.now)) }
    {
        for i in at..self.bytes.len() {
            if self.kind_at(i) < least {
                return i;
            }
        }
        self.bytes.len()
    }

    // The token that comes next from byte `at` on, if one does.
    pub fn next_token(&self, at: usize) -> Option<Next>
        requires { at ≤ length self.now.bytes.now }
        ensures { NextIs self.now.bytes.now at result }
    {
        let start = self.skip_blanks(at);
        if start == self.bytes.len() {
            return None;
        }
        let kind = self.kind_at(start);
        if kind < NAME {
            return Some(Next {
                kind,
                start,
                end: start + 1,
            });
        }
        let end = self.run_end(start + 1, kind);
        if kind == DIGITS {
            return Some(Next { kind, start, end });
        }
        Some(Next {
            kind: word_kind(self.bytes, start, end),
            start,
            end,
        })
    }
}
