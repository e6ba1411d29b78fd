// Text put into an area, as much of it as fits: bytes, and numbers in decimal digits.
#![tactic(auto)]

ghost use Rattle.std.specs.Prelude.{[], ◌++◌, ◌∷◌};
ghost use Rattle.line_texts.specs.Areas.{decimal, spaced};
ghost use Rattle.line_texts.specs.Outs.{Added};

// A lent area, and the index in it where the text that was put so far ends.
#[derive(Drop)]
pub struct Out<'a> {
    pub area: &'a mut [u8],
    pub at: usize,
}

impl<'a> Out<'a> {
    // Puts a byte if it fits.
    pub fn byte(&mut self, b: u8)
        ensures { Added (b ∷ []) self.old self.new }
    {
        if self.at < self.area.len() {
            self.area[self.at] = b;
            self.at += 1;
        }
    }

    // Puts as many bytes of s as fit.
    pub fn text(&mut self, s: &[u8])
        ensures { Added s.now self.old self.new }
    {
        for &b in s {
            self.byte(b);
        }
    }

    // Puts a number in decimal digits: those of its tenth, then its last. By hand, since `write!` may answer an error, and then promises
    // nothing of what it wrote; the kit's `itoa` writes to a buffer of its own, which would be copied here byte by byte: no plainer.
    fn number(&mut self, n: u64)
        ensures { Added (decimal n) self.old self.new }
    {
        if 10 <= n {
            self.number(n / 10);
        }
        self.byte(b'0' + (n % 10) as u8);
    }

    // Puts a space and a number.
    pub fn spaced(&mut self, n: u64)
        ensures { Added (spaced (n ∷ [])) self.old self.new }
    {
        self.byte(b' ');
        self.number(n);
    }

    // Puts a name, a space and a number.
    pub fn named(&mut self, name: &[u8], n: u64)
        ensures { Added (name.now ++ spaced (n ∷ [])) self.old self.new }
    {
        self.text(name);
        self.spaced(n);
    }

    // Puts each word as a number, one space before each.
    pub fn words(&mut self, words: &[u32])
        ensures { Added (spaced words.now) self.old self.new }
    {
        for &w in words {
            self.spaced(u64::from(w));
        }
    }
}
