// The writer of 01, "Messages": it holds the buffer lent for the reply and how far it has got, and puts XDR numbers one behind another.
#![tactic(auto)]

ghost use Rattle.std.specs.Prelude.{◌≡◌, ◌+◌, ◌≤◌, length};
ghost use Rattle.xdr.specs.Items.{Item, integer, long, width};
ghost use Rattle.xdr_writer.specs.Put.{Puts, putting};

// A number that XDR has: an unsigned integer or an unsigned hyper.
pub trait Number {
    // What it is in a layout.
    ghost item: { Self → Item };

    // Writes it at a place, and answers the place behind it.
    fn put_at(self, buf: &mut [u8], at: usize) -> usize
        requires { at + width (item self) ≤ length buf.old }
        ensures { Puts (item self) buf.old at result buf.new };
}

impl Number for u32 {
    ghost item = { integer };

    #[tactic(auto, unfolding(xdr::specs::Items::item_bytes))]
    fn put_at(self, buf: &mut [u8], at: usize) -> usize {
        xdr::set_word(buf, at, self);
        at + 4
    }
}

impl Number for u64 {
    ghost item = { long };

    #[tactic(auto, unfolding(xdr::specs::Items::item_bytes))]
    fn put_at(self, buf: &mut [u8], at: usize) -> usize {
        xdr::set_hyper(buf, at, self);
        at + 8
    }
}

// The buffer, and the place of the next number.
#[derive(Drop)]
pub struct Writer<'a> {
    pub buf: &'a mut [u8],
    pub at: usize,
}

impl Writer<'_> {
    // Puts a number, and moves on behind it; the buffer stays the one that was lent, as long as it was.
    #[tactic(auto, using(crate::proofs::Items::put_length))]
    pub fn put<T: Number>(&mut self, x: T)
        requires { self.old.at + width (T.item x) ≤ length self.old.buf.now }
        ensures put { self.new ≡ putting (T.item x) self.old }
        ensures same_buffer { self.new.buf.ghost_name ≡ self.old.buf.ghost_name }
        ensures kept { length self.new.buf.now ≡ length self.old.buf.now }
    {
        let at = self.at;
        self.at = x.put_at(&mut *self.buf, at);
    }
}
