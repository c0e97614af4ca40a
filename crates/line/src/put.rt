// A line on its way into a lent buffer: what finds no room there is left out.
ghost use Rattle.std.specs.Prelude.{◌≡◌};
ghost use Rattle.sheet.specs.Digits.{natural_digits};
ghost use Rattle.line.specs.Lines.{blank_number};
ghost use Rattle.line.specs.Put.{put, put_all};

// The buffer, and how many bytes of the line stand in it.
#[derive(Drop)]
pub struct Line<'a> {
    pub out: &'a mut [u8],
    pub n: usize,
}

impl Line<'_> {
    // Puts a byte, if there is room.
    pub fn put_byte(&mut self, b: u8)
        ensures put { (self.new.n, self.new.out.now) ≡ put (self.old.n, self.old.out.now) b }
        ensures same_reference { self.new.out.ghost_name ≡ self.old.out.ghost_name }
    {
        if self.n < self.out.len() {
            self.out[self.n] = b;
            self.n += 1;
        }
    }

    pub fn put_bytes(&mut self, s: &[u8])
        ensures put { (self.new.n, self.new.out.now) ≡ put_all (self.old.n, self.old.out.now) s.now }
        ensures same_reference { self.new.out.ghost_name ≡ self.old.out.ghost_name }
    {
        for &b in s {
            self.put_byte(b);
        }
    }

    // Puts a blank and a number.
    pub fn put_number(&mut self, x: u64)
        ensures put { (self.new.n, self.new.out.now) ≡ put_all (self.old.n, self.old.out.now) (blank_number x) }
        ensures same_reference { self.new.out.ghost_name ≡ self.old.out.ghost_name }
    {
        self.put_byte(b' ');
        self.put_digits(x);
    }

    // Puts the decimal digits of a number, those of its tenth first.
    fn put_digits(&mut self, x: u64)
        ensures put { (self.new.n, self.new.out.now) ≡ put_all (self.old.n, self.old.out.now) (natural_digits x) }
        ensures same_reference { self.new.out.ghost_name ≡ self.old.out.ghost_name }
    {
        if 10 <= x {
            self.put_digits(x / 10);
        }
        self.put_byte(b'0' + (x % 10) as u8);
    }
}
