// A text written piece by piece to a lent buffer. And two texts compared.
// Rests on fields, lists and io.
#![tactic(auto)]

ghost use Rattle.std.specs.Prelude.{◌≡◌, [], ◌∷◌, ◌*◌, length};
ghost use Rattle.text.specs.Text.{decimal, signed, hexadecimal, after_word, numbers_line, same_bytes};
ghost use Rattle.text.specs.Appended.{Room, Appended};

// A text at the start of a lent buffer: the first `length` bytes of it.
// No `write!`: it promises its bytes where it answers Ok, and not that it answers Ok where there is room. These methods cannot fail.
#[derive(Drop)]
pub struct Text<'a> {
    buffer: &'a mut [u8],
    length: usize,
}

impl<'a> Text<'a> {
    // None yet.
    pub fn new(buffer: &'a mut [u8]) -> Text<'a>
        ensures lent { result.buffer.now ≡ buffer.old }
        ensures empty { result.length ≡ 0 }
        ensures same_buffer { result.buffer.ghost_name ≡ buffer.entry.ghost_name }
    {
        Text { buffer, length: 0 }
    }

    pub fn len(&self) -> usize
        ensures { result ≡ self.now.length }
    {
        let Text { length, .. } = self;
        *length
    }

    pub fn put_byte(&mut self, byte: u8)
        requires { Room 1 self.old }
        ensures { Appended 1 (byte ∷ []) self.old self.new }
    {
        self.buffer[self.length] = byte;
        self.length += 1;
    }

    pub fn put_bytes(&mut self, bytes: &[u8])
        requires { Room (length bytes.now) self.old }
        ensures { Appended (length bytes.now) bytes.now self.old self.new }
    {
        let end = self.length + bytes.len();
        self.buffer[self.length..end].copy_from_slice(bytes);
        self.length = end;
    }

    // At most 20 digits.
    pub fn put_number(&mut self, value: u64)
        requires { Room 20 self.old }
        ensures { Appended 20 (decimal value) self.old self.new }
    {
        let mut digits = [0u8; 20];
        let count = io::decimal(value, &mut digits);
        self.put_bytes(&digits[..count]);
    }

    // At most 20 digits and a dash.
    pub fn put_signed(&mut self, value: i64)
        requires { Room 21 self.old }
        ensures { Appended 21 (signed value) self.old self.new }
    {
        let negative = value < 0;
        if negative {
            self.put_byte(b'-');
        }
        self.put_number(fields::magnitude(value));
    }

    // A word in 16 hexadecimal digits.
    pub fn put_hex(&mut self, word: u64)
        requires { Room 16 self.old }
        ensures { Appended 16 (hexadecimal word) self.old self.new }
    {
        let mut digits = [0u8; 16];
        let count = io::hex(word, 16, &mut digits);
        self.put_bytes(&digits[..count]);
    }

    // Numbers as a line of text. At most 20 digits each, and the byte after them.
    pub fn put_numbers(&mut self, numbers: &[u64])
        requires { Room (21 * length numbers.now) self.old }
        ensures { Appended (21 * length numbers.now) (numbers_line numbers.now) self.old self.new }
    {
        for (i, number) in numbers.iter().enumerate() {
            self.put_number(*number);
            self.put_byte(after_word(numbers.len() - (i + 1)));
        }
    }
}

// The byte after a word of a line, by how many words are left.
fn after_word(left: usize) -> u8
    ensures { result ≡ after_word left }
{
    if left == 0 { b'\n' } else { b' ' }
}

// Whether two texts have the same bytes.
#[tactic(auto, using(crate::proofs::Compared::compared))]
pub fn same(one: &[u8], other: &[u8]) -> bool
    ensures { result ≡ same_bytes one.now other.now }
{
    one == other
}
