// A listing under way: bytes, digits and names are put into lent bytes, one behind the other. A byte without room is left out.
ghost use Rattle.std.specs.Prelude.{◌≡◌, ◌<◌};
ghost use Rattle.text_form.specs.Decimal.{digit_for};

const ZERO_DIGIT: u8 = b'0';

const TEN: u64 = 10;

// A listing as far as it is put: the bytes lent for it, and the index behind what was put.
// Kept: interface, the bytes behind `at` stay as they were lent, and a `Vec` would need a heap; std's `Cursor` is this struct, with a write that can end early.
#[derive(Drop)]
pub struct Listing<'a> {
    pub out: &'a mut [u8],
    pub at: usize,
}

// The digit that says a number below ten.
fn digit(n: u64) -> u8
    requires { n < 10 }
    ensures { result ≡ digit_for n }
{
    ZERO_DIGIT + n as u8
}

impl<'a> Listing<'a> {
    ghost use Rattle.std.specs.Prelude.{[], ◌∷◌};
    ghost use Rattle.text_form.specs.Bytes.{first_piece};
    ghost use Rattle.text_form.specs.Decimal.{digits_of};
    ghost use Rattle.lines.specs.Puts.{Puts};

    // Puts a byte.
    #[tactic(auto, unfolding(crate::specs::Put::put_text, crate::specs::Put::put_byte))]
    pub(crate) fn put_byte(&mut self, byte: u8)
        ensures { Puts (byte ∷ []) self.old self.new }
    {
        if self.at < self.out.len() {
            self.out[self.at] = byte;
            self.at += 1;
        }
    }

    // Kept: no plainer, the definitions say digits by this recursion; `itoa` would write them into a buffer of its own, to be put here one by one, and be shown to be the same.
    // Puts a number in decimal.
    #[tactic(auto, using(crate::proofs::Puts::put_append, text_form::proofs::Digits::digits_one, text_form::proofs::Digits::digits_last))]
    pub(crate) fn put_number(&mut self, n: u64)
        ensures { Puts (digits_of n) self.old self.new }
    {
        if n < TEN {
            self.put_byte(digit(n));
            return;
        }
        self.put_number(n / TEN);
        self.put_byte(digit(n % TEN));
    }

    // Puts a name up to its first zero.
    pub(crate) fn put_name(&mut self, name: &[u8])
        ensures { Puts (first_piece 0 name.now) self.old self.new }
    {
        for byte in name.iter().take_while(|byte| **byte != 0) {
            self.put_byte(*byte);
        }
    }
}
