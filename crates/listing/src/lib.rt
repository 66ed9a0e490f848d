// The lines of a listing, put into a lent buffer as far as it goes: at its end nothing more is written.
#![tactic(auto)]

ghost use Rattle.std.specs.Prelude.{◌≡◌, [], ◌∷◌, ◌<◌, take};
ghost use Rattle.model.specs.Refusals.{number};
ghost use Rattle.model.specs.Listing.{digit, digit_of, decimal, column, header, wire_column, line_of, refused_line, filled};

use model::{Answer, Numbered, Refusal};

fn digit(n: u16) -> u8
    ensures { result ≡ digit n }
{
    48 + (n % 10) as u8
}

// The buffer, and the position behind the lines that are in it.
#[derive(Drop)]
pub struct Lines<'a> {
    out: &'a mut [u8],
    at: usize,
}

impl<'a> Lines<'a> {
    ghost use Rattle.listing.specs.Lines.{lines_in, Puts};

    pub fn new(out: &'a mut [u8]) -> Lines<'a>
        ensures empty { lines_in result ≡ filled out.old 0 }
        ensures same_buffer { result.out.ghost_name ≡ out.entry.ghost_name }
    {
        Lines { out, at: 0 }
    }

    // The same, but lines are put from a position on, within the buffer or past its end.
    pub fn behind(out: &'a mut [u8], at: usize) -> Lines<'a>
        ensures empty { lines_in result ≡ filled out.old at }
        ensures same_buffer { result.out.ghost_name ≡ out.entry.ghost_name }
    {
        Lines { out, at }
    }

    // The position behind the lines.
    pub fn written(&self) -> usize
        ensures { result ≡ (lines_in self.now).at }
    {
        self.at
    }

    pub fn bytes(&self) -> &[u8]
        ensures { result.now ≡ take (lines_in self.now).at (lines_in self.now).bytes }
    {
        let out = &*self.out;
        &out[..self.at.min(out.len())]
    }

    // The buffer serves anew, from its start on.
    pub fn clear(&mut self)
        ensures empty { lines_in self.new ≡ filled self.old.out.now 0 }
        ensures same_buffer { self.new.out.ghost_name ≡ self.old.out.ghost_name }
    {
        self.at = 0;
    }

    fn byte(&mut self, b: u8)
        ensures { Puts (b ∷ []) self.old self.new }
    {
        if self.at < self.out.len() {
            self.out[self.at] = b;
            self.at += 1;
        } else {
            self.at = self.out.len();
        }
    }

    pub fn text(&mut self, s: &[u8])
        ensures { Puts s.now self.old self.new }
    {
        for &b in s {
            self.byte(b);
        }
    }

    // The digit of n at d, a power of 10, unless n is below it.
    fn digit(&mut self, d: u16, n: u16)
        requires { 0 < d }
        ensures { Puts (digit_of d n) self.old self.new }
    {
        if d <= n {
            self.byte(digit(n / d));
        }
    }

    pub fn decimal(&mut self, n: u16)
        ensures { Puts (decimal n) self.old self.new }
    {
        self.digit(10000, n);
        self.digit(1000, n);
        self.digit(100, n);
        self.digit(10, n);
        self.byte(digit(n));
    }

    fn column(&mut self, n: u16)
        ensures { Puts (column n) self.old self.new }
    {
        self.decimal(n);
        self.byte(b' ');
    }

    // The packets on the wire, or a dash where the answer says that there is no such lock.
    fn wire(&mut self, answer: Answer, wire: u8)
        ensures { Puts (wire_column (number answer) wire) self.old self.new }
    {
        match answer {
            Err(Refusal::LockRange) => self.byte(b'-'),
            _ => self.decimal(wire as u16),
        }
    }

    pub fn header(&mut self)
        ensures { Puts header self.old self.new }
    {
        self.text(b"n kind answer wire\n");
    }

    // The line of a record's step. A run without a listing has an empty buffer, and makes no line.
    pub fn line(&mut self, n: u16, kind: u8, answer: Answer, wire: u8)
        ensures { Puts (line_of n (record { kind = kind; answer = answer; wire = wire })) self.old self.new }
    {
        if self.at == self.out.len() {
            return;
        }
        self.column(n);
        self.column(kind as u16);
        self.column(answer.number() as u16);
        self.wire(answer, wire);
        self.byte(b'\n');
    }

    // The line of a bad record, or of a run that has not begun.
    pub fn refused(&mut self, n: u16, r: Refusal)
        ensures { Puts (refused_line n r) self.old self.new }
    {
        self.column(n);
        self.text(b"- ");
        self.column(r.number() as u16);
        self.text(b"-\n");
    }
}
