// How each instruction moves SP.
ghost use Rattle.std.specs.Prelude.{◌≡◌};
ghost use Rattle.rules.specs.Actions.{add_sp};
ghost use Rattle.rules.specs.Instructions.{action_of};
ghost use Rattle.program.specs.Moves.{moves_of};

use rules::{codes, words};

// How many values an instruction needs, and how many it leaves in their place.
#[derive(Clone, Copy)]
pub struct Moves {
    pub needs: u32,
    pub leaves: u32,
}

const STAYS: Moves = Moves {
    needs: 0,
    leaves: 0,
};

const PUSHES: Moves = Moves {
    needs: 0,
    leaves: 1,
};

const POPS: Moves = Moves {
    needs: 1,
    leaves: 0,
};

const REPLACES: Moves = Moves {
    needs: 1,
    leaves: 1,
};

const COPIES: Moves = Moves {
    needs: 1,
    leaves: 2,
};

const STORES: Moves = Moves {
    needs: 2,
    leaves: 0,
};

const JOINS: Moves = Moves {
    needs: 2,
    leaves: 1,
};

const SWAPS: Moves = Moves {
    needs: 2,
    leaves: 2,
};

// ADDSP needs as many as it takes away, or leaves as many as it adds.
#[tactic(auto, using(crate::proofs::SpMoves::adds, crate::proofs::SpMoves::takes))]
fn moved_by(operand: u32) -> Moves
    ensures { result ≡ moves_of add_sp operand }
{
    if operand < words::LOWEST {
        Moves {
            needs: 0,
            leaves: operand,
        }
    } else {
        Moves {
            needs: words::MINUS_ONE - operand + 1,
            leaves: 0,
        }
    }
}

// The moves of the instruction with the code: past the last, those of STOP.
#[tactic(auto, unfolding(rules::specs::Instructions::action_of, rules::specs::Instructions::row_of, rules::specs::Instructions::rows, rules::specs::DepthList::depth_after))]
pub fn moves_of(code: usize, operand: u32) -> Moves
    ensures { result ≡ moves_of (action_of code) operand }
{
    // Stays: an arm for each code, in their order: the 24 codes that join in one arm take as many lines, and the order is lost.
    match code {
        codes::STOP => STAYS,
        codes::PUSHIMM => PUSHES,
        codes::PUSHIMMF => PUSHES,
        codes::DUP => COPIES,
        codes::SWAP => SWAPS,
        codes::ADD => JOINS,
        codes::SUB => JOINS,
        codes::TIMES => JOINS,
        codes::DIV => JOINS,
        codes::MOD => JOINS,
        codes::ADDF => JOINS,
        codes::SUBF => JOINS,
        codes::TIMESF => JOINS,
        codes::DIVF => JOINS,
        codes::AND => JOINS,
        codes::OR => JOINS,
        codes::NAND => JOINS,
        codes::NOR => JOINS,
        codes::XOR => JOINS,
        codes::NOT => REPLACES,
        codes::BITAND => JOINS,
        codes::BITOR => JOINS,
        codes::BITNAND => JOINS,
        codes::BITNOR => JOINS,
        codes::BITXOR => JOINS,
        codes::BITNOT => REPLACES,
        codes::CMP => JOINS,
        codes::CMPF => JOINS,
        codes::GREATER => JOINS,
        codes::LESS => JOINS,
        codes::EQUAL => JOINS,
        codes::ISNIL => REPLACES,
        codes::ISPOS => REPLACES,
        codes::ISNEG => REPLACES,
        codes::PUSHSP => PUSHES,
        codes::POPSP => POPS,
        codes::PUSHFBR => PUSHES,
        codes::POPFBR => POPS,
        codes::LINK => PUSHES,
        codes::ADDSP => moved_by(operand),
        codes::PUSHIND => REPLACES,
        codes::STOREIND => STORES,
        codes::PUSHOFF => PUSHES,
        codes::STOREOFF => POPS,
        codes::JUMP => STAYS,
        codes::JUMPC => POPS,
        codes::JUMPIND => POPS,
        codes::JSR => PUSHES,
        codes::JSRIND => REPLACES,
        codes::PUSHIMMPA => PUSHES,
        codes::ITOF => REPLACES,
        codes::FTOI => REPLACES,
        codes::PUSHIMMCH => PUSHES,
        codes::WRITECH => POPS,
        _ => STAYS,
    }
}
