// The reading program: reads a text from standard input and writes the script file to standard output; or prints `REFUSE N P`, the number of the error and its
// place, to standard error, and nothing to standard output. Its exit status is 0 whatever it writes, and if it can write nothing.
#![tactic(auto)]

use limits::Limits;

// One byte more than the longest text has, so that a longer one is seen to be too long.
const TEXT: usize = Limits::TEXT + 1;

// Reads the text, and writes its file or the refusal.
fn respond(rt: &(impl Print + Eprint), text: &[u8], file: &mut [u8]) {
    let reply = engine::oolong_read(text, file);
    if reply.number != 0 {
        let _ = eprintln!(rt; "REFUSE {} {}", reply.number, reply.place);
        return;
    }
    let length = reply.length as usize;
    if length <= file.len() {
        let _ = rt.write_all(&file[..length]);
    }
}

fn main(rt: HostRuntime) {
    let mut text = [0u8; TEXT];
    let n = input::read_full(&mut rt.stdin(), &mut text);
    let mut file = [0u8; Limits::FILE];
    respond(&rt, &text[..n], &mut file);
}
