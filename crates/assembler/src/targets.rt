// The second pass: each item becomes the table's place, in program order, until a target is at fault.
ghost use Rattle.std.specs.Prelude.{◌≡◌, List, ◌∷◌, length};
ghost use Rattle.rules.specs.Assemble.{Item, settle};
ghost use Rattle.assembler.specs.Held.{item_at, items_of, labels_of, settled_of, settled_all};

use crate::held::{Label, Stop};
use crate::{operand, search};
use program::table::CODE_WEIGHT;
use rules::TextRefusal;

// One item, in a program of n instructions.
fn settle_item(source: &[u8], labels: &[Label], n: usize, item: u64) -> Result<u64, Stop>
    ensures { (is : List Item) → settle n (labels_of source.now labels.now) (item_at source.now item ∷ is) ≡ settled_of result (settle n (labels_of source.now labels.now) is) }
{
    let start = (item / operand::START_WEIGHT % operand::START_SPAN) as usize;
    let code = item / CODE_WEIGHT % operand::CODE_SPAN * CODE_WEIGHT;
    let low = item % CODE_WEIGHT;
    let stop = |refusal| Stop {
        refusal,
        place: start,
    };
    match item / operand::KIND_WEIGHT {
        operand::FINISHED => Ok(item),
        operand::NUMBERED if low <= n as u64 => Ok(code + low),
        operand::LABELLED => {
            let name = search::piece_of(source, start, low as usize);
            match search::find_label(source, labels, name) {
                Some(address) => Ok(code + u64::from(address)),
                None => Err(stop(TextRefusal::LabelUnknown)),
            }
        }
        _ => Err(stop(TextRefusal::OperandRange)),
    }
}

// All items, in program order.
pub(crate) fn settle_all(source: &[u8], items: &mut [u64], labels: &[Label]) -> Result<(), Stop>
    ensures { settle (length items.old) (labels_of source.now labels.now) (items_of source.now items.old) ≡ settled_all items.new result }
{
    let n = items.len();
    for item in items.iter_mut() {
        *item = settle_item(source, labels, n, *item)?;
    }
    Ok(())
}
