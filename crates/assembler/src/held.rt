// What the assembler's functions hold and hand on.
ghost use Rattle.std.specs.Prelude.{◌≤◌, ◌<◌};
ghost use Rattle.std.specs.Option.{ForSome};
ghost use Rattle.rules.specs.Sizes.{max_program, max_labels};
ghost use Rattle.rules.specs.Instructions.{codes};

use rules::{TextRefusal, sizes};

// A refusal, and the place in the source that it is told with.
#[derive(Clone, Copy)]
pub(crate) struct Stop {
    pub refusal: TextRefusal,
    pub place: usize,
}

// A label: where its name stands in the source, and its address. Eight bytes, so that all of them take no more than 2,048 of the stack.
#[derive(Clone, Copy)]
pub(crate) struct Label {
    pub start: u32,
    pub length: u8,
    pub address: u16,
}

// What the first pass has read: how many items stand in the table; the labels, the first `named` of the list; and the code whose operand is awaited, for which the table has room.
// Stays: the labels are a list with a count beside it, since the library takes no crate but std, and has no heap (rules of the project).
#[derive(Drop)]
pub(crate) struct FirstPass {
    pub items: usize,
    pub labels: [Label; sizes::MAX_LABELS],
    pub named: usize,
    pub awaited: Option<usize>,
    ghost few_items: { items ≤ max_program },
    ghost few_labels: { named ≤ max_labels },
    ghost room: { ForSome awaited (λ code. (code < codes) × (items < max_program)) },
}
