// Numbers in a text, between blanks and line feeds.
ghost use Rattle.std.specs.Prelude.{◌≡◌, IfOk, if◌then◌else◌, Ok, Err, OnOk, length};
ghost use Rattle.std.specs.List.{take_while};
ghost use Rattle.order.specs.Lists.{is_empty};
ghost use Rattle.stream.specs.declared.fault.Cause.TheVariants.{Rest};
ghost use Rattle.stream.specs.Numerals.{after_blanks, after_first, after_numeral, first_number, is_blank, numeral, read_value, with_digit};

use crate::fault::{Cause, Choice, Place};

// The numbers of a text from some byte on.
#[derive(Drop)]
pub struct Numbers<'a> {
    text: &'a [u8],
    // What is left of the text.
    rest: &'a [u8],
    // The text from where the last number that was asked for begins, or should begin.
    due: &'a [u8],
}

fn is_blank(byte: u8) -> bool
    ensures { result ≡ is_blank byte }
{
    byte == b' ' || byte == b'\n'
}

// How many blanks a text begins with.
fn blanks(text: &[u8]) -> usize
    ensures { result ≡ length (take_while is_blank text.now) }
{
    text.iter().take_while(|byte| is_blank(**byte)).count()
}

// The text from its first byte on that is no blank.
#[tactic(auto, using(crate::proofs::Lexing::after_cut))]
fn after_blanks(text: &[u8]) -> &[u8]
    ensures { result.now ≡ after_blanks text.now }
{
    text.split_at(blanks(text)).1
}

// The number that begins a text, and what follows it.
// Kept: tried to count the digits and fold over them; a long word whose fault stands early was then gone over whole, at seven times the instructions.
fn numeral(text: &[u8]) -> Result<(u32, &[u8]), Cause>
    ensures value { read_value result ≡ numeral text.now }
    ensures rest { IfOk result (λ read. read.1.now ≡ after_numeral text.now) }
{
    if text.is_empty() {
        return Err(Cause::End);
    }
    let mut value = 0;
    let mut rest = text;
    while let Some((byte, after)) = rest.split_first() {
        if is_blank(*byte) {
            break;
        }
        value = with_digit(value, *byte)?;
        rest = after;
    }
    Ok((value, rest))
}

// The number with one more digit at its end.
// Kept: `parse` does not tell at which byte the text is no number, and the fault names it.
fn with_digit(value: u32, byte: u8) -> Result<u32, Cause>
    ensures { result ≡ with_digit value byte }
{
    if byte < b'0' || b'9' < byte {
        return Err(Cause::Byte(byte));
    }
    let next = value as u64 * 10 + (byte - b'0') as u64;
    Ok(u32::try_from(next)?)
}

impl<'a> Numbers<'a> {
    pub(crate) fn new(text: &'a [u8]) -> Numbers<'a>
        ensures text { result.text.now ≡ text.now }
        ensures rest { result.rest.now ≡ text.now }
    {
        Numbers {
            text,
            rest: text,
            due: text,
        }
    }

    // The next number.
    pub(crate) fn next(&mut self) -> Result<u32, Cause>
        ensures text { self.new.text.now ≡ self.old.text.now }
        ensures value { result ≡ first_number self.old.rest.now }
        ensures rest { OnOk result (self.new.rest.now ≡ after_first self.old.rest.now) }
    {
        self.due = after_blanks(self.rest);
        let (value, rest) = numeral(self.due)?;
        self.rest = rest;
        Ok(value)
    }

    // The next number, as how many or which.
    pub(crate) fn count(&mut self) -> Result<usize, Cause>
        ensures text { self.new.text.now ≡ self.old.text.now }
        ensures value { result ≡ first_number self.old.rest.now }
        ensures rest { OnOk result (self.new.rest.now ≡ after_first self.old.rest.now) }
    {
        let value = self.next()?;
        Ok(value as usize)
    }

    // What the next number chooses.
    pub(crate) fn choice<T: TryFrom<u32, Error = Choice>>(&mut self) -> Result<T, Cause> {
        Ok(T::try_from(self.next()?)?)
    }

    // Whether only blanks are left.
    pub(crate) fn finish(&mut self) -> Result<(), Cause>
        ensures { result ≡ (if is_empty (after_blanks self.old.rest.now) then Ok tt else Err Rest) }
    {
        self.due = after_blanks(self.rest);
        if self.due.is_empty() {
            Ok(())
        } else {
            Err(Cause::Rest)
        }
    }

    // Where the last number that was asked for stands.
    // Kept: tried two passes, one by `split`, which took 1.4 times the instructions, and one fold, which took as many as this, but 1.3 times as long on words
    // and 1.5 times on blanks.
    pub(crate) fn place(&self) -> Place {
        let passed = &self.text[..self.text.len().saturating_sub(self.due.len())];
        let mut place = Place { line: 1, number: 1 };
        let mut blank_before = true;
        for byte in passed {
            let blank = is_blank(*byte);
            if *byte == b'\n' {
                place.line = place.line.saturating_add(1);
            }
            if blank_before && !blank {
                place.number = place.number.saturating_add(1);
            }
            blank_before = blank;
        }
        place
    }
}
