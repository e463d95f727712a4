// Whether the places of one record are well formed: its cell places, and its step place.
ghost use Rattle.std.specs.Prelude.{◌≡◌};
ghost use Rattle.rules.specs.Records.{formed_cell, formed_cells, formed_step};

// Whether a cell place is well formed, of N cells in a program of `count` instructions, with an address of at least `low`.
fn is_formed_cell(place: u64, low: usize, n: usize, count: usize) -> bool
    ensures { result ≡ formed_cell n count low place }
{
    let address = places::cell_address(place);
    places::mark_of(place) == places::CELL_MARK
        && places::cell_zeros(place) == 0
        && low <= address
        && address < n
        && state::is_sound_cell(count, places::cell_tag(place), places::cell_bits(place))
}

// Whether the cell places are well formed, and their addresses rise strictly.
pub(crate) fn are_formed_cells(cells: &[u64], n: usize, count: usize) -> bool
    ensures { result ≡ formed_cells n count 0 cells.now }
{
    let mut low = 0;
    for place in cells {
        if !is_formed_cell(*place, low, n, count) {
            return false;
        }
        low = places::cell_address(*place) + 1;
    }
    true
}

// Whether a step place is well formed, with so many places `below` it.
pub(crate) fn is_formed_step(place: u64, n: usize, count: usize, below: usize) -> bool
    ensures { result ≡ formed_step n count below place }
{
    places::mark_of(place) == places::STEP_MARK
        && places::step_zeros(place) == 0
        && places::step_pc(place) < count
        && places::step_sp(place) < n
        && places::step_fbr(place) < n
        && places::step_count(place) <= below
}
