// What a pen writes.
ghost use Rattle.std.specs.Prelude.{◌≡◌, ◌*◌, ◌^◌, ◌<◌, ◌≤◌, [], ◌∷◌, length};
ghost use Rattle.writer.specs.Ink.{Inks, Writes, HasRoom, Filled, bits_at};

use super::Pen;

impl<'b> Pen<'b> {
    // A pen at the front of a buffer.
    pub(crate) fn new(buffer: &'b mut [u8]) -> Pen<'b>
        ensures same { result.buffer.ghost_name ≡ buffer.entry.ghost_name }
        ensures empty { Inks buffer.old 0 0 result }
    {
        Pen {
            buffer,
            at: 0,
            held: 0,
            count: 0,
        }
    }

    // Writes a field of at most sixteen bits: the whole bytes go out, and the bits that are left are held.
    pub(crate) fn push(&mut self, width: u8, value: u16)
        requires narrow { width ≤ 16 }
        requires fits { value < 2 ^ width }
        requires room { HasRoom ((width, value) ∷ []) self.old }
        ensures { Writes ((width, value) ∷ []) self.old self.new }
    {
        let bits = (u32::from(self.held) << width) + u32::from(value);
        let count = self.count + width;
        let left = count % 8;
        // The bytes go out by value: a copy out of the array, of a length that varies, would be a call in each push.
        let [_, _, high, low] = (bits >> left).to_be_bytes();
        if count >= 16 {
            self.buffer[self.at] = high;
            self.buffer[self.at + 1] = low;
            self.at += 2;
        } else if count >= 8 {
            self.buffer[self.at] = low;
            self.at += 1;
        }
        self.held = (bits % (1 << left)) as u8;
        self.count = left;
    }

    // Fills the last byte with zero bits: how many bytes there are.
    pub(crate) fn finish(&mut self) -> usize
        requires { bits_at self.old ≤ 8 * length self.old.buffer.now }
        ensures same { self.new.buffer.ghost_name ≡ self.old.buffer.ghost_name }
        ensures filled { Filled self.old result self.new.buffer.now }
    {
        if self.count > 0 {
            self.push(8 - self.count, 0);
        }
        self.at
    }
}
