// "Numbers given back": the number that a refusal or a call's answer stands for.
#![tactic(auto)]

ghost use Rattle.std.specs.Prelude.{◌≡◌, ℕ};
ghost use Rattle.rules.specs.Numbers.{machine_number, text_number, image_number, unread_number, forget_number, depth_number, save_number, load_number, unnamed_number, formula_number, number_of_step, number_of_ending, registers_after};
ghost use Rattle.rules.specs.declared.SourceFault.{SourceFault};
ghost use Rattle.rules.specs.declared.DepthFault.{DepthFault};
ghost use Rattle.numbers.specs.Answered.{number_of};

use rules::{
    DepthFault, DepthRefusal, DwellRefusal, Ending, ForgetRefusal, FormulaRefusal, ImageRefusal,
    LoadRefusal, MachineRefusal, Registers, SaveRefusal, SourceFault, Step, TextRefusal,
    WhyRefusal,
};

// "0: done, or a run found HALT 1", and "50: run limit reached".
const DONE: u32 = 0;

const LIMIT_REACHED: u32 = 50;

// What has a number: a refusal, where it is told with a place too, and the answer of a call.
pub trait Numbered {
    ghost number: { Self → ℕ };

    fn number(self) -> u32
        ensures { result ≡ number self };
}

// The refusals are declared with their numbers.
// Stays: ten blocks of one form, since the gate refuses an impl that a macro of this repository writes (a rule of the project).
impl Numbered for MachineRefusal {
    ghost number = { machine_number };

    fn number(self) -> u32 {
        self as u32
    }
}

impl Numbered for TextRefusal {
    ghost number = { text_number };

    fn number(self) -> u32 {
        self as u32
    }
}

impl Numbered for ImageRefusal {
    ghost number = { image_number };

    fn number(self) -> u32 {
        self as u32
    }
}

impl Numbered for DwellRefusal {
    ghost number = { unread_number };

    fn number(self) -> u32 {
        self as u32
    }
}

impl Numbered for ForgetRefusal {
    ghost number = { forget_number };

    fn number(self) -> u32 {
        self as u32
    }
}

impl Numbered for DepthRefusal {
    ghost number = { depth_number };

    fn number(self) -> u32 {
        self as u32
    }
}

impl Numbered for SaveRefusal {
    ghost number = { save_number };

    fn number(self) -> u32 {
        self as u32
    }
}

impl Numbered for LoadRefusal {
    ghost number = { load_number };

    fn number(self) -> u32 {
        self as u32
    }
}

impl Numbered for WhyRefusal {
    ghost number = { unnamed_number };

    fn number(self) -> u32 {
        self as u32
    }
}

impl Numbered for FormulaRefusal {
    ghost number = { formula_number };

    fn number(self) -> u32 {
        self as u32
    }
}

// A refusal that is told with where it stands has its number.
impl Numbered for SourceFault {
    ghost number = { λ (x : SourceFault). text_number x.refusal };

    fn number(self) -> u32 {
        self.refusal.number()
    }
}

impl Numbered for DepthFault {
    ghost number = { λ (x : DepthFault). depth_number x.refusal };

    fn number(self) -> u32 {
        self.refusal.number()
    }
}

// An answer has its refusal's number.
impl<T: Drop, E: Numbered> Numbered for Result<T, E> {
    ghost number = { number_of E.number };

    fn number(self) -> u32 {
        match self {
            Ok(_) => DONE,
            Err(refusal) => refusal.number(),
        }
    }
}

impl Numbered for Step {
    ghost number = { number_of_step };

    fn number(self) -> u32 {
        match self {
            Step::Next(_) => DONE,
            Step::Refused(refusal) => refusal.number(),
        }
    }
}

impl Numbered for Ending {
    ghost number = { number_of_ending };

    fn number(self) -> u32 {
        match self {
            Ending::Halted => DONE,
            Ending::LimitReached => LIMIT_REACHED,
            Ending::Stopped(refusal) => refusal.number(),
        }
    }
}

// The registers after a step or a step-back: where it is refused, those before it.
pub fn registers_after(r: Registers, step: Step) -> Registers
    ensures { result ≡ registers_after r step }
{
    match step {
        Step::Next(next) => next,
        Step::Refused(_) => r,
    }
}
