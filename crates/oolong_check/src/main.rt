// The checking program: reads a script from standard input and prints `ACCEPT T`, T the start's type, or `REFUSE N P`, the number of the question that gets a
// no and its place. Its exit status is 0 whatever it prints, and if it can print nothing.
#![tactic(auto)]

use limits::Limits;

fn main(rt: HostRuntime) {
    // Longer input than the buffer is longer than any script, so the part that is read gets the same answer.
    let mut buffer = [0u8; Limits::TEXT];
    let n = input::read_full(&mut rt.stdin(), &mut buffer);
    let reply = engine::oolong_check(&buffer[..n]);
    let _ = if reply.number == 0 {
        println!(rt; "ACCEPT {}", reply.start_type)
    } else {
        println!(rt; "REFUSE {} {}", reply.number, reply.place)
    };
}
