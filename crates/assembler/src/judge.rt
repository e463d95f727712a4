// The first pass: the tokens are judged one at a time from the left, until one is at fault.
ghost use Rattle.std.specs.Prelude.{◌≡◌, List, ℕ, ◌≤◌, ◌<◌, length, take};
ghost use Rattle.rules.specs.Sizes.{max_source, max_program};
ghost use Rattle.rules.specs.Instructions.{codes, kind_of};
ghost use Rattle.rules.specs.Assemble.{code_named, operand_of_kind, new_label, new_name, new_operand, judge_token, judge};
ghost use Rattle.tokens.specs.Next.{from, between};
ghost use Rattle.assembler.specs.Held.{piece, state_of, placed, judged_of, judged_all};

use crate::held::{FirstPass, Label, Stop};
use crate::{classes, operand, search};
use program::table::CODE_WEIGHT;
use rules::{Kind, TextRefusal, sizes};
use tokens::Token;

// Stays: each contract asks for the table's length, since of a `&mut [u64; N]` that `try_from` makes of a slice no proof knows what is left in the slice (tried).
impl FirstPass {
    // The labels that were read.
    pub(crate) fn labels(&self) -> &[Label]
        ensures { result.now ≡ take self.now.named self.now.labels }
    {
        &self.labels[..self.named]
    }

    // A label, whose name starts at `start`: its address is the number of the items before it.
    fn take_label(&mut self, source: &[u8], start: usize, name: &[u8]) -> Result<(), TextRefusal>
        requires { (start ≤ max_source) × (piece source.now start (length name.now) ≡ name.now) }
        ensures { (table : List ℕ) → length table ≡ max_program → new_label (state_of source.now table self.old) start name.now ≡ judged_of source.now table self.new (placed start result) }
    {
        if name.len() > sizes::MAX_LABEL {
            return Err(TextRefusal::LabelTooLong);
        }
        if search::find_label(source, self.labels(), name).is_some() {
            return Err(TextRefusal::LabelTwice);
        }
        if self.named == sizes::MAX_LABELS {
            return Err(TextRefusal::TooManyLabels);
        }
        self.labels[self.named] = Label {
            start: start as u32,
            length: name.len() as u8,
            address: self.items as u16,
        };
        self.named += 1;
        Ok(())
    }

    // An instruction's name: its operand comes next, or the table has its place.
    fn take_name(&mut self, table: &mut [u64], name: &[u8]) -> Result<(), TextRefusal>
        requires { (length table.old ≡ max_program) × (self.old.awaited ≡ None) }
        ensures { (source : List ℕ) (start : ℕ) → new_name (state_of source table.old self.old) start (code_named name.now) ≡ judged_of source table.new self.new (placed start result) }
    {
        let Some(code) = program::names::code_named(name) else {
            return Err(TextRefusal::NoInstruction);
        };
        if self.items == sizes::MAX_PROGRAM {
            return Err(TextRefusal::TooManyInstructions);
        }
        match program::kinds::kind_of(code) {
            Kind::Bare => {
                table[self.items] = code as u64 * CODE_WEIGHT;
                self.items += 1;
            }
            _ => self.awaited = Some(code),
        }
        Ok(())
    }

    // The operand of the code, which starts at `start`.
    fn take_operand(
        &mut self,
        table: &mut [u64],
        code: usize,
        start: usize,
        t: &[u8],
    ) -> Result<(), TextRefusal>
        requires { (length table.old ≡ max_program) × ((self.old.items < max_program) × ((code < codes) × (start ≤ max_source))) }
        ensures { (source : List ℕ) → piece source start (length t.now) ≡ t.now → new_operand (state_of source table.old self.old) start (operand_of_kind (kind_of code) code start t.now) ≡ judged_of source table.new self.new (placed start result) }
    {
        table[self.items] = operand::read_operand(code, start, t)?;
        self.items += 1;
        self.awaited = None;
        Ok(())
    }

    // One token judged.
    fn judge_token(&mut self, source: &[u8], table: &mut [u64], token: Token) -> Result<(), Stop>
        requires { (length table.old ≡ max_program) × ((token.start < token.end) × ((token.end ≤ length source.now) × (length source.now ≤ max_source))) }
        ensures { judge_token (state_of source.now table.old self.old) (record { at = token.start; text = between source.now token.start token.end }) ≡ judged_of source.now table.new self.new result }
    {
        let Token { start, end } = token;
        let t = &source[start..end];
        if let Some(at) = classes::first_forbidden(t) {
            return Err(Stop {
                refusal: TextRefusal::ForbiddenByte,
                place: start + at,
            });
        }
        let stop = |refusal| Stop {
            refusal,
            place: start,
        };
        if let Some(code) = self.awaited {
            return self.take_operand(table, code, start, t).map_err(stop);
        }
        if let Some(name) = classes::label_name(t) {
            return self.take_label(source, start, name).map_err(stop);
        }
        self.take_name(table, t).map_err(stop)
    }

    // All tokens judged, until one is at fault.
    pub(crate) fn judge_all(&mut self, source: &[u8], table: &mut [u64]) -> Result<(), Stop>
        requires { (length table.old ≡ max_program) × (length source.now ≤ max_source) }
        ensures { judge (length source.now) (state_of source.now table.old self.old) (from source.now 0) ≡ judged_all source.now table.new self.new result }
    {
        let mut at = 0;
        while let Some(token) = tokens::next_token(source, at) {
            self.judge_token(source, table, token)?;
            at = token.end;
        }
        Ok(())
    }
}
