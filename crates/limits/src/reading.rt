//! The limits of reading.
use anyhow::anyhow;
use std::fmt;
use std::fmt::Display;
use text::ReadFault;
use word::Word;

// The label of a byte. It is printed as it stands: where memory is wanting, the texts after it are still shown.
#[derive(Clone, Copy, PartialEq, Eq, Debug)]
struct Byte(u8);

impl Display for Byte {
    fn fmt<W: fmt::Write>(&self, f: &mut fmt::Formatter<W>) -> fmt::Result {
        write!(f, "byte {}", self.0)
    }
}

/// Texts that are read as one module's, each shown on a line of its own.
#[derive(Clone, Copy)]
struct Reading<'a> {
    rt: &'a HostRuntime,
    module: Word,
}

impl<'a> Reading<'a> {
    fn new(rt: &'a HostRuntime) -> anyhow::Result<Reading<'a>> {
        let module = Word::try_from(&b"m"[..]).map_err(|_| anyhow!("m is a word"))?;
        Ok(Reading { rt, module })
    }

    // What a text reads as.
    fn show<L: Display + Copy>(&self, label: L, text: &[u8]) -> anyhow::Result<()> {
        match text::read(self.rt.alloc(), self.module, text) {
            Ok(text) => println!(self.rt; "{label}: forms {}", text.forms.len())?,
            Err(ReadFault::Refused(refusal)) => println!(self.rt; "{label}: {refusal}")?,
            Err(ReadFault::Memory) => println!(self.rt; "{label}: no memory")?,
        }
        Ok(())
    }

    // So many times `front`, then `middle`, then as many times `back`.
    fn nested(
        &self,
        label: &str,
        times: usize,
        front: &str,
        middle: &str,
        back: &str,
    ) -> anyhow::Result<()> {
        let heap = self.rt.alloc();
        let front = front.repeat(heap, times)?;
        let back = back.repeat(heap, times)?;
        let text = format!(in heap; "{front}{middle}{back}")?;
        self.show(label, text.as_bytes())
    }

    fn items(&self) -> anyhow::Result<()> {
        self.show("no bytes", b"")?;
        self.show("word of 1 byte", b"a")?;
        self.show("word of 12 bytes", b"abcdefghijkl")?;
        self.show("word of 13 bytes", b"abcdefghijklm")?;
        self.show("word of letters, digits and hyphens", b"z-9-")?;
        self.show("2147483647", b"2147483647")?;
        self.show("2147483648", b" 2147483648")?;
        self.show("-2147483648", b"-2147483648")?;
        self.show("-2147483649", b" -2147483649")?;
        for number in [
            "0",
            "-0",
            "00",
            "01",
            "-",
            "--1",
            "1-2",
            "1a",
            "99999999999999999999",
        ] {
            self.show(number, number.as_bytes())?;
        }
        Ok(())
    }

    fn nesting(&self) -> anyhow::Result<()> {
        self.nested("64 brackets", 64, "(", "", ")")?;
        self.nested("65 brackets", 65, "(", "", ")")?;
        self.nested("64 quotes", 64, "'", "x", "")?;
        self.nested("65 quotes", 65, "'", "x", "")?;
        self.nested("32 of each", 32, "('", "x", ")")?;
        self.nested("33 of each", 33, "('", "x", ")")?;
        self.nested("65 quotes at the end", 65, "'", "", "")?;
        self.nested("64 lists side by side", 64, "()", "", "()")?;
        self.show("ends inside a list", b"(a (b)")?;
        self.show("ends after a quote", b"a '")?;
        self.show("closes nothing", b"a )")?;
        self.show("closes after a quote", b"(a ' )")?;
        self.show("the first fault wins", b"(A 00")
    }

    // Every byte by itself: those that may stand alone, those that are an item, and those that no text has.
    fn bytes(&self) -> anyhow::Result<()> {
        for b in 0..=255u8 {
            self.show(Byte(b), &[b' ', b])?;
        }
        Ok(())
    }
}

pub(crate) fn both_sides(rt: &HostRuntime) -> anyhow::Result<()> {
    let reading = Reading::new(rt)?;
    reading.items()?;
    reading.nesting()?;
    reading.bytes()
}
