// Read's reply.
ghost use Rattle.std.specs.Prelude.{◌≡◌};

// Read's reply: the number of the error and its place, or 0 and 0; and how many bytes the file has. A place may be 65,536, which takes 32 bits.
#[repr(C)]
#[derive(Clone, Copy)]
pub struct ReadReply {
    pub number: u16,
    pub length: u16,
    pub place: u32,
}

// A reply of these numbers.
pub fn read_reply(number: u16, length: u16, place: u32) -> ReadReply
    ensures { result ≡ record { number = number; length = length; place = place } }
{
    ReadReply {
        number,
        length,
        place,
    }
}
