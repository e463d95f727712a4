// The records of a history: whether one of them is well formed, and what a forget and a why ask of all that are in use.
#![tactic(auto)]

mod parts;

ghost use Rattle.std.specs.Prelude.{◌≡◌};
ghost use Rattle.rules.specs.Records.{record_at, cut_down, formed_record};
ghost use Rattle.records.specs.Judgements.{judgement};

// Whether the record whose step place is place `last` of the history is well formed: it is not where there is no such place.
// Stays: n and count as two numbers, since a struct of them would be made at each call of numbers that the callers have in the registers and the program, and be no plainer.
#[tactic(auto, using(crate::proofs::Formed::record_outside))]
pub fn is_formed_record(history: &[u64], last: usize, n: usize, count: usize) -> bool
    ensures { result ≡ formed_record n count (record_at last history.now) }
{
    let Some(place) = history.get(last) else {
        return false;
    };
    parts::is_formed_step(*place, n, count, last)
        && parts::are_formed_cells(&history[last - places::step_count(*place)..last], n, count)
}

// Judges the records in use, as a forget and a why do once the state is sound: how many places lie below the newest `stay` of them, or None where one is not well
// formed or they are not as many as are kept, for which both answer 10.
pub fn judge(
    history: &[u64],
    used: usize,
    n: usize,
    count: usize,
    kept: usize,
    stay: usize,
) -> Option<usize>
    ensures { result ≡ judgement n count kept stay (cut_down 0 used history.now) }
{
    let mut left = used;
    let mut passed = 0;
    let mut below = used;
    // Each turn passes the record on top of the places left.
    // Stays: a record is jumped over as a whole, which a `for` can't do.
    while 0 < left {
        let last = left - 1;
        if !is_formed_record(history, last, n, count) {
            return None;
        }
        left = last - places::step_count(history[last]);
        passed += 1;
        if passed <= stay {
            below = left;
        }
    }
    (kept == passed).then_some(below)
}
