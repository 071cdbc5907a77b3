// Text in a lent buffer: a writer puts piece behind piece, numbers in decimal or hexadecimal among them, as far as the buffer reaches, and counts them
// past its end. So the same function counts a text, with the shortest of buffers, and writes it. Relies on `rules` for what a slice holds, and on `io`
// for the digits of a decimal number. Numbers and lines are put by hand: what `write!` and a `Display` write is promised of a `String` alone, which needs a
// heap.
#![tactic(auto)]

ghost use Rattle.std.specs.Prelude.{◌+◌, ◌^◌, ◌<◌, ◌≡◌, length, take};
ghost use Rattle.text.specs.Text.{decimal, hex, hex_digit};
ghost use Rattle.text.specs.Writing.{Wrote};

// A text that is written to a lent buffer, and the place behind it.
#[derive(Drop)]
pub struct Writer<'a> {
    out: &'a mut [u8],
    at: usize,
}

impl<'a> Writer<'a> {
    // Begins at the buffer's first byte.
    pub fn new(out: &'a mut [u8]) -> Self
        ensures same_reference { result.out.ghost_name ≡ out.entry.ghost_name }
        ensures bytes { result.out.now ≡ out.old }
        ensures at { result.at ≡ 0 }
    {
        Writer { out, at: 0 }
    }

    // Begins at any place, past the buffer's end too.
    pub fn begin_at(out: &'a mut [u8], at: usize) -> Self
        ensures same_reference { result.out.ghost_name ≡ out.entry.ghost_name }
        ensures bytes { result.out.now ≡ out.old }
        ensures at { result.at ≡ at }
    {
        Writer { out, at }
    }

    // The place behind the text.
    pub fn at(&self) -> usize
        ensures { result ≡ self.now.at }
    {
        self.at
    }

    // The text, as far as it is in the buffer.
    pub fn text(&self) -> &[u8]
        ensures { result.now ≡ take self.now.at self.now.out.now }
    {
        &self.out[..self.at.min(self.out.len())]
    }

    // Writes the bytes of a piece. Pieces are short, so that copying them by a call takes longer than byte by byte.
    pub fn put(&mut self, piece: &[u8])
        ensures { Wrote piece.now self.old self.new }
    {
        let start = self.at.min(self.out.len());
        let count = piece.len().min(self.out.len() - start);
        for i in 0..count {
            self.out[start + i] = piece[i];
        }
        self.at = self.at.saturating_add(piece.len());
    }

    // Writes a number in decimal.
    pub fn put_decimal(&mut self, n: usize)
        ensures { Wrote (decimal n) self.old self.new }
    {
        let mut digits = [0u8; 20];
        let count = io::decimal(n as u64, &mut digits);
        self.put(&digits[..count]);
    }

    // Writes a number of 16 bits as four hexadecimal digits, capitals.
    pub fn put_hex(&mut self, n: u16)
        ensures { Wrote (hex n) self.old self.new }
    {
        let digits = [
            hex_digit(n / 4096),
            hex_digit(n / 256 % 16),
            hex_digit(n / 16 % 16),
            hex_digit(n % 16),
        ];
        self.put(&digits);
    }
}

// The byte of a hexadecimal digit.
#[tactic(auto, using(std::proofs::lemmas::Bool::Decides::nat_tests))]
fn hex_digit(d: u16) -> u8
    requires { d < 16 }
    ensures { result ≡ hex_digit d }
{
    if d < 10 {
        return b'0' + d as u8;
    }
    b'A' - 10 + d as u8
}
