//! The table of commands, and the first command of a file that it does not permit.

ghost use Rattle.std.specs.Prelude.{◌-◌, ◌≡◌, None, Some, cond, eqb, get_or};
ghost use Rattle.model.specs.Codes.{code_number};
ghost use Rattle.model.specs.Sequence.{command, command_count, command_from, permitted};
ghost use Rattle.model.specs.Refusals.{bad_command, first_bad};

use crate::file::{code_in, exceeds};
use model::{Code, Command};

// The table of commands: the largest number that each field may hold, 0 where the command does not use it.
const COMMANDS: [Command; 10] = [
    // insert
    Command {
        code: 1,
        value: u64::MAX,
        ..Command::NO_FIELDS
    },
    // remove
    Command {
        code: 2,
        index: u16::MAX,
        generation: u32::MAX,
        ..Command::NO_FIELDS
    },
    // invalidate
    Command {
        code: 3,
        index: u16::MAX,
        generation: u32::MAX,
        ..Command::NO_FIELDS
    },
    // get
    Command {
        code: 4,
        index: u16::MAX,
        generation: u32::MAX,
        ..Command::NO_FIELDS
    },
    // clear
    Command {
        code: 5,
        ..Command::NO_FIELDS
    },
    // order
    Command {
        code: 6,
        ..Command::NO_FIELDS
    },
    // compress
    Command {
        code: 7,
        flag: 1,
        ..Command::NO_FIELDS
    },
    // audit
    Command {
        code: 8,
        ..Command::NO_FIELDS
    },
    // setgen
    Command {
        code: 9,
        generation: u32::MAX,
        ..Command::NO_FIELDS
    },
    // takeinx
    Command {
        code: 10,
        index: u16::MAX,
        ..Command::NO_FIELDS
    },
];

// The row of a command.
#[tactic(auto, using(crate::proofs::CommandTable::code_first, crate::proofs::CommandTable::code_last))]
fn most(table: &[Command; 10], code: Code) -> Command
    requires { table.now ≡ permitted }
    ensures { result ≡ get_or permitted (code_number code - 1) (command 0 0 0 0 0) }
{
    table[u8::from(code) as usize - 1]
}

// `BadCommand`, of the command that a part of the file begins with: no command has its code, or a field is larger than
// its row permits.
fn bad_command(table: &[Command; 10], part: &[u8]) -> bool
    requires { table.now ≡ permitted }
    ensures { result ≡ bad_command (command_from part.now 0) }
{
    match Code::try_from(code_in(part)) {
        Ok(code) => exceeds(part, most(table, code)),
        Err(_) => true,
    }
}

// `BadCommand`: the number of the first bad command. The table is bound once for the file, since each place that names
// a constant lays it out anew.
pub(crate) fn first_bad(file: &[u8]) -> Option<usize>
    ensures { let n = first_bad file.now (command_count file.now) in
        result ≡ cond (eqb n 0) None (Some n) }
{
    let table = COMMANDS;
    let (commands, _) = file.get(8..)?.as_chunks::<16>();
    for (i, part) in commands.iter().enumerate() {
        if bad_command(&table, part) {
            return Some(i + 1);
        }
    }
    None
}
