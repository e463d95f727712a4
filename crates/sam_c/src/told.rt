// What a call tells is lent too, and first of all has to have the call's length.
use rules::TextRefusal;

// "lent output not of its exact length", which what a call tells is lent too.
pub(crate) const NOT_ITS_LENGTH: u32 = TextRefusal::WrongLength as u32;
