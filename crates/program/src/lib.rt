// The instruction table in code: the kinds of operand, how SP moves, the names, and a program as it is lent.
#![tactic(auto)]

pub mod kinds;
pub mod moves;
pub mod names;
pub mod table;

ghost use Rattle.std.specs.Prelude.{◌≡◌, ◌≤◌, length, take, drop};
ghost use Rattle.std.specs.List.{list_all};
ghost use Rattle.rules.specs.Table.{sound_place, is_zero, sound_table};
ghost use Rattle.program.specs.Lent.{program_of};

use crate::table::is_sound_place;
use rules::sizes;

// A program as it is lent: a table, of whose places the first `length` hold its instructions.
#[derive(Clone, Copy)]
pub struct Program<'a> {
    pub table: &'a [u64],
    pub length: usize,
}

impl Program<'_> {
    // Whether each used place can be assembled.
    fn used_are_sound(self) -> bool
        requires { self.length ≤ length self.table.now }
        ensures { result ≡ list_all (sound_place self.entry.length) (take self.entry.length self.entry.table.now) }
    {
        self.table[..self.length]
            .iter()
            .all(|place| is_sound_place(self.length, *place))
    }

    // Whether each unused place is zero.
    fn unused_are_zero(self) -> bool
        requires { self.length ≤ length self.table.now }
        ensures { result ≡ list_all is_zero (drop self.entry.length self.entry.table.now) }
    {
        let (_, unused) = self.table.split_at(self.length);
        unused.iter().all(|place| *place == 0)
    }

    // Whether the table is one that the assembler could make, with `length` instructions.
    #[tactic(auto, using(crate::proofs::Chains::list_all_is), unfolding(rules::specs::Table::sound_table))]
    pub fn is_sound(self) -> bool
        ensures { result ≡ sound_table (program_of self.entry) }
    {
        self.length <= sizes::MAX_PROGRAM
            && self.table.len() == sizes::MAX_PROGRAM
            && self.used_are_sound()
            && self.unused_are_zero()
    }
}
