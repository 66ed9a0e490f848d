// Standard output, piece by piece.
use model::{Answer, Numbered, TASKS};
use std::fmt::Display;
use std::io;

// Where the text goes. After a write that failed nothing more is written, and `end` gives its error.
#[derive(Drop)]
pub struct Output<'a, R: Print> {
    rt: &'a R,
    written: io::Result<()>,
}

impl<'a, R: Print> Output<'a, R> {
    pub fn new(rt: &'a R) -> Output<'a, R> {
        Output {
            rt,
            written: Ok(()),
        }
    }

    pub fn end(self) -> io::Result<()> {
        self.written
    }

    // A part of the script, whatever bytes it has.
    pub fn text(&mut self, s: &[u8]) {
        if self.written.is_ok() {
            self.written = self.rt.write_all(s);
        }
    }

    pub fn line(&mut self, s: &[u8]) {
        self.text(s);
        self.text(b"\n");
    }

    pub fn print<D: Display + Drop>(&mut self, value: D) {
        if self.written.is_ok() {
            self.written = self.rt.print(value);
        }
    }

    // A client is written machine/task.
    pub fn client(&mut self, c: u8) {
        let (machine, task) = (c / TASKS as u8, c % TASKS as u8);
        self.print(format_args!("{machine}/{task}"));
    }

    pub fn answer(&mut self, answer: Answer) {
        self.print(answer.number());
    }

    // Writes the place that a number of a command says, or that the number is too large for what it counts.
    pub fn put<T: Drop>(&mut self, place: Option<&mut T>, value: T) {
        match place {
            Some(x) => *x = value,
            None => self.out_of_range(),
        }
    }

    // A number of a command is too large for what it counts.
    pub fn out_of_range(&mut self) {
        self.not_understood(b"a number out of range");
    }

    // What the script says is no command: the line shows in the output, where nothing expects it.
    pub fn not_understood(&mut self, s: &[u8]) {
        self.text(b"NOT UNDERSTOOD: ");
        self.line(s);
    }
}
