// Numbers as text: decimal digits in ASCII, put at a place of lent bytes.
#![tactic(auto)]

ghost use Rattle.std.specs.Prelude.{◌≡◌, [], ◌∷◌, ◌+◌, ◌-◌, ◌≤◌, ◌<◌, length, replicate};
ghost use Rattle.decimal.specs.Digits.{BLANK, digit, decimal, decimal_in};
ghost use Rattle.decimal.specs.Text.{PutText};

pub const BLANK: u8 = 32;

// A digit's character is this and the digit.
const ZERO: u8 = 48;

// The buffer lent for the text, and the place of the next character.
#[derive(Drop)]
pub struct Page<'a> {
    pub out: &'a mut [u8],
    pub at: usize,
}

// Each method puts its text at the place, and moves on behind it. The buffer stays the one that was lent, as long as it was (`text_length`).
impl Page<'_> {
    // A character.
    pub fn put_byte(&mut self, b: u8)
        requires { self.old.at < length self.old.out.now }
        ensures text { PutText self.old.out.now self.old.at (b ∷ []) self.new.at self.new.out.now }
        ensures same_buffer { self.new.out.ghost_name ≡ self.old.out.ghost_name }
    {
        self.out[self.at] = b;
        self.at += 1;
    }

    fn put_digit(&mut self, d: u64)
        requires { (self.old.at < length self.old.out.now) × (d < 10) }
        ensures text { PutText self.old.out.now self.old.at (digit d ∷ []) self.new.at self.new.out.now }
        ensures same_buffer { self.new.out.ghost_name ≡ self.old.out.ghost_name }
    {
        self.put_byte(ZERO + d as u8);
    }

    // So many blanks.
    fn put_blanks(&mut self, count: usize)
        requires { self.old.at + count ≤ length self.old.out.now }
        ensures text { PutText self.old.out.now self.old.at (replicate count BLANK) self.new.at self.new.out.now }
        ensures same_buffer { self.new.out.ghost_name ≡ self.old.out.ghost_name }
    {
        let next = self.at + count;
        self.out[self.at..next].fill(BLANK);
        self.at = next;
    }

    // A number at the right of a column.
    #[tactic(auto, using(crate::proofs::Columns::one_length, crate::proofs::Columns::more_length, crate::proofs::Columns::one_room, crate::proofs::Columns::more_room))]
    pub fn put_decimal_in(&mut self, width: usize, n: u64)
        requires { self.old.at + length (decimal_in width n) ≤ length self.old.out.now }
        ensures text { PutText self.old.out.now self.old.at (decimal_in width n) self.new.at self.new.out.now }
        ensures same_buffer { self.new.out.ghost_name ≡ self.old.out.ghost_name }
    {
        let rest = width.saturating_sub(1);
        if n < 10 {
            self.put_blanks(rest);
            self.put_digit(n);
            return;
        }
        self.put_decimal_in(rest, n / 10);
        self.put_digit(n % 10);
    }

    // A number.
    #[tactic(auto, using(crate::proofs::Decimal::column_none))]
    pub fn put_decimal(&mut self, n: u64)
        requires { self.old.at + length (decimal n) ≤ length self.old.out.now }
        ensures text { PutText self.old.out.now self.old.at (decimal n) self.new.at self.new.out.now }
        ensures same_buffer { self.new.out.ghost_name ≡ self.old.out.ghost_name }
    {
        self.put_decimal_in(0, n);
    }
}
