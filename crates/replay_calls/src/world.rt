//! What the lines of a script are played on: two stores and a journal.
use crate::code::{Code, Moving};
use crate::line::{Line, WORDS};
use crate::store::Store;
use crate::text::Part;
use crate::{columns, moves, run};
use model::{Ptr, Row};
use scripts::Journal;
use std::alloc::{AllocError, Global};
use std::mem;

// What each row of the journal holds at the start.
const ZEROS: Row = Row {
    old: Ptr::NONE,
    new: Ptr::NONE,
    overflow: false,
};

#[derive(Drop)]
pub struct World {
    store: Store,
    other: Store,
    journal: Journal,
}

impl World {
    pub fn new(alloc: Global) -> Result<World, AllocError> {
        Ok(World {
            store: Store::new(alloc)?,
            other: Store::new(alloc)?,
            journal: Journal::new(alloc, WORDS, ZEROS)?,
        })
    }

    // What a call leaves beside the store: the other store where there are two, and the journal's rows where there is
    // one.
    fn show_moved(&self, alloc: Global, to: &mut Vec<u8>, call: Moving) -> Result<(), AllocError> {
        if call != Moving::CompressWith {
            self.other.show(alloc, to)?;
        }
        if call != Moving::CloneFromWith {
            columns::show(alloc, to, &self.journal)?;
        }
        Ok(())
    }

    // Writes the line that answers a call, from what the call says.
    fn answer(
        &self,
        alloc: Global,
        to: &mut Vec<u8>,
        line: Line<'_>,
        reply: run::Reply,
    ) -> Result<(), AllocError> {
        line.write(to)?;
        reply.write(to)?;
        self.store.show(alloc, to)?;
        if let Code::Moving(call) = line.code {
            self.show_moved(alloc, to, call)?;
        }
        Ok(())
    }

    // Plays a line, and writes the line that answers it, if one does.
    fn play_on_store(
        &mut self,
        alloc: Global,
        to: &mut Vec<u8>,
        line: Line<'_>,
    ) -> Result<(), AllocError> {
        let reply = match line.code {
            Code::Store => {
                self.store.give(line);
                return Ok(());
            }
            Code::Fill => {
                self.store.fill(line);
                return Ok(());
            }
            Code::Journal => {
                self.journal = columns::give(alloc, line)?;
                return Ok(());
            }
            Code::OnMessage(call) => run::message(call, line, &mut self.store),
            Code::OnStore(call) => run::store(call, line, &mut self.store),
            Code::WithCursor(call) => run::cursor(call, line, &mut self.store),
            Code::Moving(call) => run::plain(moves::call(
                call,
                line,
                &mut self.store,
                &mut self.other,
                &mut self.journal,
            )),
        };
        self.answer(alloc, to, line, reply)
    }

    fn exchange(&mut self) {
        mem::swap(&mut self.store, &mut self.other);
    }

    // The same, with the stores exchanged where the line has to do with the other.
    pub fn play(
        &mut self,
        alloc: Global,
        to: &mut Vec<u8>,
        line: Line<'_>,
    ) -> Result<(), AllocError> {
        if !line.other {
            return self.play_on_store(alloc, to, line);
        }
        self.exchange();
        let played = self.play_on_store(alloc, to, line);
        self.exchange();
        played
    }
}
