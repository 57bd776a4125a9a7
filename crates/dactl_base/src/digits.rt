//! Numbers as text.

ghost use Rattle.std.specs.Prelude.{◌≡◌};
ghost use Rattle.std.specs.Fmt.{signed_decimal};

use itoa::Buffer;

/// Room for the decimal text of one number.
#[derive(Drop)]
pub struct Digits {
    buffer: Buffer,
}

impl Digits {
    /// Room for the text of one number at a time, of up to 128 bits with its sign. It lies in the
    /// value itself: no memory is asked for, and numbers written one after the other may share it.
    pub fn new() -> Digits {
        Digits {
            buffer: Buffer::new(),
        }
    }

    /// The number in decimal, with `-` before it where it is below 0. It stands until the next
    /// call.
    pub fn text(&mut self, n: i128) -> &[u8]
        ensures { result.now ≡ signed_decimal n }
    {
        self.buffer.format(n).as_bytes()
    }
}
