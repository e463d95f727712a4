// The places of a record, made of numbers that fit their fields.
ghost use Rattle.std.specs.Prelude.{◌≡◌, ◌<◌};
ghost use Rattle.rules.specs.Places.{cell_place, step_place};
ghost use Rattle.machine.specs.Spans.{cell_span, pc_span, tag_span};

// The cell place that keeps a cell's old tag and bits.
pub(crate) fn cell_place(address: usize, tag: u8, bits: u32) -> u64
    requires { (address < cell_span) × (tag < tag_span) }
    ensures { result ≡ cell_place address tag bits }
{
    address as u64 * places::ADDRESS_WEIGHT
        + tag as u64 * places::TAG_WEIGHT
        + bits as u64 * places::BITS_WEIGHT
}

// The step place that keeps the old PC, SP and FBR, and tells how many cells were written.
pub(crate) fn step_place(pc: usize, sp: usize, fbr: usize, count: usize) -> u64
    requires { (pc < pc_span) × (sp < cell_span) × (fbr < cell_span) × (count < cell_span) }
    ensures { result ≡ step_place pc sp fbr count }
{
    let marked = places::MARK_WEIGHT + pc as u64 * places::PC_WEIGHT;
    let stack = sp as u64 * places::SP_WEIGHT + fbr as u64 * places::FBR_WEIGHT;
    marked + stack + count as u64 * places::COUNT_WEIGHT
}
