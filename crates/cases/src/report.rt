use std::io;
use std::io::Print;

const END: &str = "the end";

/// How many cases agree with what was wanted, and how many differ.
#[derive(Clone, Copy, Default)]
pub struct Report {
    agree: usize,
    differ: usize,
}

/// The first line at which the texts differ: its number from 1, and both lines.
fn difference<'a>(wanted: &'a str, told: &'a str) -> (usize, &'a str, &'a str) {
    let mut number = 1;
    let mut told = told.split('\n');
    for wanted in wanted.split('\n') {
        let told = told.next().unwrap_or(END);
        if wanted != told {
            return (number, wanted, told);
        }
        number = number.saturating_add(1);
    }
    (number, END, told.next().unwrap_or(END))
}

impl Report {
    /// Notes whether the program told what was wanted, and where it did not prints the first line that differs.
    pub fn note(
        &mut self,
        rt: &impl Print,
        place: &str,
        wanted: &str,
        told: &str,
    ) -> io::Result<()> {
        if wanted == told {
            self.agree = self.agree.saturating_add(1);
            return Ok(());
        }
        self.differ = self.differ.saturating_add(1);
        let (line, wanted, told) = difference(wanted, told);
        println!(rt; "{place}: line {line} is\n  {told}\nand not\n  {wanted}")
    }

    /// Prints how many agree, and how many differ where some do.
    pub fn finish(&self, rt: &impl Print) -> io::Result<()> {
        let agree = self.agree;
        match self.differ {
            0 => println!(rt; "{agree} agree"),
            differ => println!(rt; "{agree} agree, {differ} differ"),
        }
    }
}
