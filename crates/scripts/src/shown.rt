//! How headers, answers and rows of the journal are printed: in a wrapper, since `model`, whose types they are, prints
//! nothing.
ghost use Rattle.std.specs.Prelude.{Some};
ghost use Rattle.scripts.specs.Words.{row_text, header_text, completed_text};

use model::{Completed, Header, Message, Row};
use std::fmt;

#[derive(Clone, Copy, PartialEq, Eq)]
pub struct Shown<T>(pub T);

impl fmt::Display for Shown<Row> {
    ghost output = { λ s. Some (row_text s.0) };

    fn fmt<W: fmt::Write>(&self, f: &mut fmt::Formatter<W>) -> fmt::Result {
        let Row { old, new, overflow } = self.0;
        let overflow = u8::from(overflow);
        write!(
            f,
            "{}:{}:{}:{}:{overflow}",
            old.index, old.generation, new.index, new.generation
        )
    }
}

impl fmt::Display for Shown<Header> {
    ghost output = { λ s. Some (header_text s.0) };

    fn fmt<W: fmt::Write>(&self, f: &mut fmt::Formatter<W>) -> fmt::Result {
        let Header {
            len,
            m,
            root,
            generation,
        } = self.0;
        write!(f, "{len} {m} {root} {generation}")
    }
}

// What a call that was not turned down has done, and the message that its answer shows.
impl fmt::Display for Shown<Completed<Message>> {
    ghost output = { λ s. Some (completed_text s.0) };

    fn fmt<W: fmt::Write>(&self, f: &mut fmt::Formatter<W>) -> fmt::Result {
        let (word, m) = match self.0 {
            Completed::Done(m) => ("ok", m),
            Completed::Overflow(m) => ("over", m),
        };
        write!(f, "{word} {} {} {}", m.ptr.index, m.ptr.generation, m.value)
    }
}
